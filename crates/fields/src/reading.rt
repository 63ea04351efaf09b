// Reads the fields of a line one after another. A field that is at fault is not passed: the reader
// then stands in front of it.
ghost use Rattle.std.specs.Prelude.{◌≡◌, [], ◌∷◌};
ghost use Rattle.fields.specs.Forms.{one, range, access as access_shape, num};
ghost use Rattle.fields.specs.Readers.{Steps, Takes, Reading, Ending, access_items};
ghost use Rattle.fields.specs.Tokens.{number_within, access_named};

use crate::fault::{Fault, FaultKind};
use crate::opening::{field_end, token_of};
use crate::reader::Reader;
use crate::token::{Token, TokenKind};
use protocol::making::TOP;
use protocol::message::Access;

impl Token<'_> {
    // The number that the field holds, from `low` to `high` and never above the top.
    fn number_within(self, low: u64, high: u64) -> Result<u64, FaultKind>
        ensures { result ≡ number_within low high self.entry.kind }
    {
        match self.kind {
            TokenKind::Number(n) if low <= n && n <= high && n <= TOP => Ok(n),
            TokenKind::Number(_) => Err(FaultKind::Range),
            _ => Err(FaultKind::Form),
        }
    }
}

// What a field `r` or `w` names.
impl TryFrom<TokenKind> for Access {
    type Error = FaultKind;

    ghost try_from_gives = { λ kind r. r ≡ access_named kind };

    fn try_from(kind: TokenKind) -> Result<Access, FaultKind> {
        match kind {
            TokenKind::Letter(b'r') => Ok(Access::Read),
            TokenKind::Letter(b'w') => Ok(Access::Write),
            _ => Err(FaultKind::Form),
        }
    }
}

impl<'a> Reader<'a> {
    // The next field, or none at the line feed.
    pub(crate) fn next(&mut self) -> Option<Token<'a>>
        ensures { Steps self.old self.new result }
    {
        let line = self.line;
        if line[self.at] == b'\n' {
            return None;
        }
        let from = self.at + 1;
        let to = field_end(line, from);
        self.at = to;
        Some(token_of(&line[from..to], from))
    }

    // The next field, of which `read` says the value or what is wrong with it.
    fn field<X, F: FnOnce(Token<'a>) -> Result<X, FaultKind>>(
        &mut self,
        read: F,
    ) -> Result<X, Fault>
        requires { F.IsAlwaysCallable read }
        ensures { Takes (F.post read) self.old self.new result }
    {
        let mut ahead = *self;
        let none = Fault {
            kind: FaultKind::Count,
            at: self.at,
        };
        let token = ahead.next().ok_or(none)?;
        let value = read(token).map_err(|kind| Fault { kind, at: token.at })?;
        *self = ahead;
        Ok(value)
    }

    // The next field, which has to be a number from `low` to `high`, and is never above the top.
    pub fn number(&mut self, low: u64, high: u64) -> Result<u64, Fault>
        ensures { Reading (one (range low high)) (λ n. num n ∷ []) self.old self.new result }
    {
        self.field(|token| token.number_within(low, high))
    }

    // The next field, which has to be `r` or `w`.
    pub fn access(&mut self) -> Result<Access, Fault>
        ensures { Reading (one access_shape) access_items self.old self.new result }
    {
        self.field(|token| Access::try_from(token.kind))
    }

    // The line feed has to follow the last field.
    pub fn end(&self) -> Result<(), Fault>
        ensures { Ending self.now result }
    {
        if self.line[self.at] == b'\n' {
            return Ok(());
        }
        let kind = FaultKind::Count;
        let at = self.at + 1;
        Err(Fault { kind, at })
    }
}
