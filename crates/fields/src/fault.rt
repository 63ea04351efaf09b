// What can be wrong with a line.
ghost use Rattle.std.specs.Prelude.{◌≡◌};
ghost use Rattle.fields.specs.Faults.{fault_reason};

use protocol::refusal::Reason;

#[derive(Clone, Copy, PartialEq, Eq, Debug)]
pub enum FaultKind {
    // The line is too long, or does not end with its only line feed.
    Frame,
    // The first field is none of the letters.
    Letter,
    // A field is missing, or there is one too many.
    Count,
    // A field is not written as it has to be.
    Form,
    // A number is out of its range.
    Range,
}

impl From<FaultKind> for Reason {
    ghost from_gives = { λ kind reason. reason ≡ fault_reason kind };

    fn from(kind: FaultKind) -> Reason {
        match kind {
            FaultKind::Frame => Reason::LineFrame,
            FaultKind::Letter => Reason::UnknownLetter,
            FaultKind::Count => Reason::FieldCount,
            FaultKind::Form => Reason::FieldForm,
            FaultKind::Range => Reason::FieldRange,
        }
    }
}

// A fault, and the offset of the byte in the line where it is.
#[derive(Clone, Copy, PartialEq, Eq, Debug)]
pub struct Fault {
    pub kind: FaultKind,
    pub at: usize,
}

impl From<Fault> for Reason {
    ghost from_gives = { λ fault reason. reason ≡ fault_reason fault.kind };

    fn from(fault: Fault) -> Reason {
        Reason::from(fault.kind)
    }
}
