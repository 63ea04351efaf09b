// The letter that a line begins with says which message it is.
ghost use Rattle.std.specs.Prelude.{◌≡◌};
ghost use Rattle.fields.specs.declared.fault.FaultKind.TheVariants.{Letter};
ghost use Rattle.lines.specs.Letters.{letter, kind_of, Lettered, Naming};

use fields::fault::{Fault, FaultKind};
use fields::token::{Token, TokenKind};
use protocol::message::Body;

#[derive(Clone, Copy, Debug, PartialEq, Eq)]
pub enum MessageKind {
    Prepare,
    PrepareAt,
    Vote,
    State,
    Voted,
}

// A byte that is the letter of no message.
#[derive(Clone, Copy, Debug, PartialEq, Eq)]
pub struct UnknownLetter {}

impl MessageKind {
    pub fn of<V>(body: &Body<V>) -> MessageKind
        ensures { result ≡ kind_of body.now }
    {
        match body {
            Body::Prepare(_) => MessageKind::Prepare,
            Body::PrepareAt(_) => MessageKind::PrepareAt,
            Body::Vote(_, _) => MessageKind::Vote,
            Body::State(_) => MessageKind::State,
            Body::Voted(_, _) => MessageKind::Voted,
        }
    }
}

impl From<MessageKind> for u8 {
    ghost from_gives = { λ kind b. b ≡ letter kind };

    fn from(kind: MessageKind) -> u8 {
        match kind {
            MessageKind::Prepare => b'P',
            MessageKind::PrepareAt => b'F',
            MessageKind::Vote => b'V',
            MessageKind::State => b'A',
            MessageKind::Voted => b'D',
        }
    }
}

// The letters again, the other way: as cases they read plainer than a search among the five.
impl TryFrom<u8> for MessageKind {
    type Error = UnknownLetter;

    ghost try_from_gives = { Lettered };

    fn try_from(letter: u8) -> Result<MessageKind, UnknownLetter> {
        match letter {
            b'P' => Ok(MessageKind::Prepare),
            b'F' => Ok(MessageKind::PrepareAt),
            b'V' => Ok(MessageKind::Vote),
            b'A' => Ok(MessageKind::State),
            b'D' => Ok(MessageKind::Voted),
            _ => Err(UnknownLetter {}),
        }
    }
}

// Of a line, this is a fault at its start.
impl From<UnknownLetter> for Fault {
    ghost from_gives = { λ _ fault. (fault.kind ≡ Letter) × (fault.at ≡ 0) };

    fn from(_unknown: UnknownLetter) -> Fault {
        Fault {
            kind: FaultKind::Letter,
            at: 0,
        }
    }
}

// The message that the first field of a line names.
pub(crate) fn named_by(first: Token) -> Result<MessageKind, Fault>
    ensures { Naming first.entry result }
{
    match first.kind {
        TokenKind::Letter(letter) => Ok(MessageKind::try_from(letter)?),
        TokenKind::Number(_) | TokenKind::Bad => Err(UnknownLetter {}.into()),
    }
}
