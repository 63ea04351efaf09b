// Where a keeper keeps its records.
ghost use Rattle.std.specs.Prelude.{◌≡◌, ℕ, Bool, false, List, length, is_ok};
ghost use Rattle.protocol.specs.declared.record.Record.{Record};
ghost use Rattle.protocol.specs.Stores.{got, put_answer, records_after_put, Cleaned};

use crate::record::Record;
use crate::refusal::StoreRefusal;

// A record with the register that it belongs to.
#[derive(Clone, Copy)]
pub struct Entry<V> {
    pub register: u8,
    pub record: Record<V>,
}

// A store means one record for each register, and is open or shut; only an open one takes a put.
pub trait Store {
    type Value: Copy;

    ghost records: { Self → List (Record Self.Value) };

    ghost opened: { Self → Bool };

    // How long a scratch its cleaning needs, and what its cleaning leaves of it.
    ghost needed: { Self → ℕ };

    ghost cleans: { Self → Self → Type 0 };

    fn get(&self, register: u8) -> Result<Record<Self::Value>, StoreRefusal>
        ensures { result ≡ got (records self.now) register };

    // Replaces the record of the register. It may shut the store.
    fn put(&mut self, register: u8, new: &Record<Self::Value>) -> Result<(), StoreRefusal>
        ensures answers { result ≡ put_answer (records self.old) (opened self.old) register }
        ensures replaces_that_record_only { records self.new ≡ records_after_put (is_ok result) (records self.old) register new.now }
        ensures a_refusal_changes_nothing { is_ok result ≡ false → self.new ≡ self.old };

    // Makes room. It may open a shut store. The ghost members stand one by one in the clause: what it cites
    // is said of any store, below this trait.
    fn clean(&mut self, scratch: &mut [Entry<Self::Value>]) -> Result<(), StoreRefusal>
        ensures { Cleaned records opened needed cleans (length scratch.old) self.old self.new result };
}
