// Why no store was made.
ghost use Rattle.std.specs.Prelude.{◌≡◌, Some};
ghost use Rattle.stores.specs.Making.{no_store_reason, no_store_text};
ghost use Rattle.stores.specs.declared.making.NoStore.TheVariants.{NoMemory};

use protocol::refusal::Reason;
use std::alloc::AllocError;
use std::error::Error;
use std::fmt;

#[derive(Clone, Copy, PartialEq, Eq, Debug)]
pub enum NoStore {
    OutOfRange,
    NoMemory,
}

impl NoStore {
    // Want of memory has no number: it is no fault of the caller's. Not a From for Option<Reason>:
    // that reads no plainer than the method's name.
    pub fn reason(self) -> Option<Reason>
        ensures { result ≡ no_store_reason self }
    {
        match self {
            NoStore::OutOfRange => Some(Reason::OutOfRange),
            NoStore::NoMemory => None,
        }
    }
}

impl From<AllocError> for NoStore {
    ghost from_gives = { λ _ e. e ≡ NoMemory };

    fn from(_e: AllocError) -> Self {
        Self::NoMemory
    }
}

impl fmt::Display for NoStore {
    ghost output = { λ e. Some (no_store_text e) };

    fn fmt<W: fmt::Write>(&self, f: &mut fmt::Formatter<W>) -> fmt::Result {
        f.write_str(match self {
            NoStore::OutOfRange => "a number or a length out of range",
            NoStore::NoMemory => "no memory for the records",
        })
    }
}

impl Error for NoStore {}
