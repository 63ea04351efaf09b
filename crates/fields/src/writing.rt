// Writes fields to a buffer, one behind another.
ghost use Rattle.std.specs.Prelude.{◌≡◌, [], ◌∷◌, decimal, ◌<◌, ◌≤◌, MatchResult};
ghost use Rattle.protocol.specs.declared.refusal.Reason.TheVariants.{NoRoom};
ghost use Rattle.fields.specs.Buffers.{content, Wrote, Put};
ghost use Rattle.fields.specs.Forms.{num, letter as letter_item};

use crate::buffer::{Buffer, LONGEST, TooLong};
use protocol::refusal::Reason;

impl From<TooLong> for Reason {
    ghost from_gives = { λ _ reason. reason ≡ NoRoom };

    fn from(_: TooLong) -> Reason {
        Reason::NoRoom
    }
}

impl Buffer {
    pub fn new() -> Buffer
        ensures { result.count ≡ 0 }
    {
        Buffer {
            bytes: [0; 1024],
            count: 0,
        }
    }

    // Ready for another line.
    pub fn clear(&mut self)
        ensures { self.new.count ≡ 0 }
    {
        self.count = 0;
    }

    // The line that was written, unless it is longer than any.
    pub fn line(&self) -> Result<&[u8], TooLong>
        ensures { MatchResult result (λ line. (line.now ≡ content self.now) × (self.now.count ≤ 1024)) (λ _. 1024 < self.now.count) }
    {
        if self.count > LONGEST {
            return Err(TooLong {});
        }
        Ok(&self.bytes[..self.count])
    }

    // All that is kept of what was written.
    pub fn kept(&self) -> &[u8]
        ensures { result.now ≡ content self.now }
    {
        &self.bytes[..self.count.min(LONGEST)]
    }

    pub fn byte(&mut self, b: u8)
        ensures { Wrote (b ∷ []) self.old self.new }
    {
        if self.count < LONGEST {
            self.bytes[self.count] = b;
            self.count += 1;
        } else {
            self.count = LONGEST + 1;
        }
    }

    // The decimal digits of `n`.
    pub(crate) fn digits(&mut self, n: u64)
        ensures { Wrote (decimal n) self.old self.new }
    {
        for b in itoa::Buffer::new().format(n).as_bytes() {
            self.byte(*b);
        }
    }

    // A field that is a number.
    pub fn number(&mut self, n: u64)
        ensures { Put (num n ∷ []) self.old self.new }
    {
        self.byte(b'\t');
        self.digits(n);
    }

    // A field that is a letter.
    pub fn letter(&mut self, b: u8)
        ensures { Put (letter_item b ∷ []) self.old self.new }
    {
        self.byte(b'\t');
        self.byte(b);
    }
}
