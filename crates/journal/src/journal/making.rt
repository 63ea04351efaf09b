// Makes a journal store, or refuses a count that is out of range.
ghost use Rattle.journal.specs.Journals.{MakesJournal};

use crate::journal::JournalStore;
use protocol::kind::Kind;
use protocol::record::Record;
use std::alloc::Global;
use stores::making::NoStore;

impl<K: Kind> JournalStore<K> {
    // A store with no puts yet, for 1 to 64 registers, with at least one place more than registers
    // and at most 65,536. All its memory is reserved here, so that no later call wants any.
    pub fn new(heap: Global, registers: u8, places: usize) -> Result<JournalStore<K>, NoStore>
        ensures { MakesJournal K.Kind.first registers places result }
    {
        let places_within = usize::from(registers) + 1..=65536;
        if !(1..=64).contains(&registers) || !places_within.contains(&places) {
            return Err(NoStore::OutOfRange);
        }
        Ok(JournalStore {
            entries: Vec::with_capacity(heap, places)?,
            registers,
            places,
            fresh: Record::new(&K::start()),
        })
    }
}
