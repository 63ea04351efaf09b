// What a register holds: a kind of value (in the field: the state machine that a register runs).
ghost use Rattle.std.specs.Prelude.{◌≡◌, Result};
ghost use Rattle.protocol.specs.declared.kind.Applied.{Applied};
ghost use Rattle.protocol.specs.declared.kind.Denial.{Denial};
ghost use Rattle.protocol.specs.declared.kind.Denial.TheVariants.{CommandOutOfRange};
ghost use Rattle.protocol.specs.Refusals.{denial_number};

use crate::refusal::OutOfRange;

// Why a command is denied: it is none that the kind knows, or the value does not allow it. Denials have
// numbers of their own.
#[derive(Clone, Copy, PartialEq, Eq, Debug)]
pub enum Denial {
    CommandOutOfRange = 1,
    NoPermitFree = 2,
    NotTheHolder = 3,
    TotalPassesTop = 4,
    NumberBelowLast = 6,
}

impl From<Denial> for u8 {
    ghost from_gives = { λ denial n. n ≡ denial_number denial };

    fn from(denial: Denial) -> u8 {
        denial as u8
    }
}

// A command that names what there is not is out of range.
impl From<OutOfRange> for Denial {
    ghost from_gives = { λ e denial. denial ≡ CommandOutOfRange };

    fn from(_e: OutOfRange) -> Denial {
        Denial::CommandOutOfRange
    }
}

// What comes of a command that is not denied: it is carried, with the new value and an answer, or it
// was already carried before, with the answer that it had.
#[derive(Clone, Copy, PartialEq, Eq, Debug)]
pub enum Applied<V> {
    Carried(V, u32),
    Already(u32),
}

// A value that commands are applied to. The ghost members say what a kind means: the value that it
// starts from, and what a command makes of a value, which depends on these two alone.
pub trait Kind: Copy {
    type Command: Copy;

    ghost first: { Self };

    ghost applies: { Self → Self.Command → Result (Applied Self) Denial };

    fn start() -> Self
        ensures { result ≡ first };

    fn apply(&self, command: &Self::Command) -> Result<Applied<Self>, Denial>
        ensures { result ≡ applies self.now command.now };
}
