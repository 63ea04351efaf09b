// The table store: one place for each register, always open.
ghost use Rattle.std.specs.Prelude.{◌≡◌, length};
ghost use Rattle.protocol.specs.Stores.{Cleaned};
ghost use Rattle.stores.specs.Tables.{table_records, table_open, table_needed, TableCleans, MakesTable};

use crate::making::NoStore;
use protocol::kind::Kind;
use protocol::record::Record;
use protocol::refusal::StoreRefusal;
use protocol::store::{Entry, Store};
use std::alloc::Global;

#[derive(Drop)]
pub struct TableStore<V: Copy> {
    table: Vec<Record<V>>,
}

impl<K: Kind> TableStore<K> {
    // A store of new records for so many registers, 1 to 64.
    pub fn new(heap: Global, registers: u8) -> Result<TableStore<K>, NoStore>
        ensures { MakesTable K.Kind.first registers result }
    {
        if !(1..=64).contains(&registers) {
            return Err(NoStore::OutOfRange);
        }
        // Not vec!: that clones, and of a clone nothing says that it is the record itself.
        let mut table = Vec::new(heap);
        table.resize(usize::from(registers), Record::new(&K::start()))?;
        Ok(TableStore { table })
    }
}

impl<V: Copy> Store for TableStore<V> {
    type Value = V;

    ghost records = { table_records };

    ghost opened = { table_open };

    ghost needed = { table_needed };

    ghost cleans = { TableCleans };

    fn get(&self, register: u8) -> Result<Record<V>, StoreRefusal> {
        self.table
            .get(usize::from(register))
            .copied()
            .ok_or(StoreRefusal::UnknownRegister)
    }

    fn put(&mut self, register: u8, new: &Record<V>) -> Result<(), StoreRefusal> {
        let record = self
            .table
            .get_mut(usize::from(register))
            .ok_or(StoreRefusal::UnknownRegister)?;
        *record = *new;
        Ok(())
    }

    // The trait's clause again: a method with a clause of its own has only those written here.
    fn clean(&mut self, scratch: &mut [Entry<V>]) -> Result<(), StoreRefusal>
        ensures cleaned { Cleaned table_records table_open table_needed TableCleans (length scratch.old) self.old self.new result }
        ensures leaves_the_scratch_as_it_was { scratch.new ≡ scratch.old }
    {
        // A table has nothing to clean, and needs no scratch for it.
        Ok(())
    }
}
