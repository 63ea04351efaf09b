// Why a call is refused. Each crate that refuses has an enum of its own few cases; each case has one
// of the reasons below, and the reason's number is what a fitter reads.
ghost use Rattle.std.specs.Prelude.{◌≡◌};
ghost use Rattle.protocol.specs.Refusals.{number_of, store_reason};

// Every reason for a refusal in this library. A number means the same thing wherever it is read.
#[derive(Clone, Copy, PartialEq, Eq, Debug)]
pub enum Reason {
    UnknownRegister = 1,
    WrongMessage = 2,
    Stale = 3,
    CounterAtTop = 4,
    StoreShut = 5,
    LineFrame = 10,
    UnknownLetter = 11,
    FieldCount = 12,
    FieldForm = 13,
    FieldRange = 14,
    NoRoom = 15,
    OutOfRange = 16,
}

impl From<Reason> for u8 {
    ghost from_gives = { λ reason n. n ≡ number_of reason };

    fn from(reason: Reason) -> u8 {
        reason as u8
    }
}

// What a store refuses: a register that it does not have, a put while it is shut, a cleaning with
// too short a scratch.
#[derive(Clone, Copy, PartialEq, Eq, Debug)]
pub enum StoreRefusal {
    UnknownRegister,
    Shut,
    ShortScratch,
}

impl From<StoreRefusal> for Reason {
    ghost from_gives = { λ refusal reason. reason ≡ store_reason refusal };

    fn from(refusal: StoreRefusal) -> Reason {
        match refusal {
            StoreRefusal::UnknownRegister => Reason::UnknownRegister,
            StoreRefusal::Shut => Reason::StoreShut,
            StoreRefusal::ShortScratch => Reason::NoRoom,
        }
    }
}

// A thing was to be made with a number or a length out of its range.
#[derive(Clone, Copy, PartialEq, Eq, Debug)]
pub struct OutOfRange {}

impl From<OutOfRange> for Reason {
    ghost use Rattle.protocol.specs.declared.refusal.Reason.TheVariants.{OutOfRange};

    ghost from_gives = { λ e reason. reason ≡ OutOfRange };

    fn from(_e: OutOfRange) -> Reason {
        Reason::OutOfRange
    }
}
