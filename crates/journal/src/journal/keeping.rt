// A journal store as a store: it gets, puts and cleans.
ghost use Rattle.std.specs.Prelude.{◌≡◌, ◌==◌, ◌<◌, true, false, find, length, option_map, reverse, is_ok, vec_len};
ghost use Rattle.protocol.specs.Stores.{put_answer, records_after_put, Cleaned};
ghost use Rattle.journal.specs.Journals.{latest, journal_records, journal_open, JournalPuts, journal_needed, JournalCleans, FreeScratch};

use crate::journal::JournalStore;
use protocol::record::Record;
use protocol::refusal::StoreRefusal;
use protocol::store::{Entry, Store};

impl<V: Copy> JournalStore<V> {
    // The newest entry of a register, if it has any.
    fn newest(&self, register: u8) -> Option<&Entry<V>>
        ensures { option_map (λ e. e.now) result ≡ find (λ e. e.register == register) (reverse self.now.entries.items) }
    {
        self.entries
            .iter()
            .rev()
            .find(|entry| entry.register == register)
    }

    // The record of a register: that of its newest entry counts.
    fn latest(&self, register: u8) -> Record<V>
        ensures { result ≡ latest self.now.fresh self.now.entries.items register }
    {
        self.newest(register)
            .map_or(self.fresh, |entry| entry.record)
    }

    // Writes an entry into the next place.
    fn add(&mut self, register: u8, record: Record<V>)
        requires { (register < self.old.registers) × (vec_len self.old.entries < self.old.places) }
        ensures { JournalPuts self.old register «record» self.new }
    {
        self.entries.push_reserved(Entry { register, record });
    }
}

impl<V: Copy> Store for JournalStore<V> {
    type Value = V;

    ghost records = { journal_records };

    ghost opened = { journal_open };

    ghost needed = { journal_needed };

    ghost cleans = { JournalCleans };

    fn get(&self, register: u8) -> Result<Record<V>, StoreRefusal> {
        if register < self.registers {
            Ok(self.latest(register))
        } else {
            Err(StoreRefusal::UnknownRegister)
        }
    }

    // The trait's clauses again: a method with a clause of its own has only those written here.
    fn put(&mut self, register: u8, new: &Record<V>) -> Result<(), StoreRefusal>
        ensures answers { result ≡ put_answer (journal_records self.old) (journal_open self.old) register }
        ensures replaces_that_record_only { journal_records self.new ≡ records_after_put (is_ok result) (journal_records self.old) register new.now }
        ensures a_refusal_changes_nothing { is_ok result ≡ false → self.new ≡ self.old }
        ensures puts_in_its_way { is_ok result ≡ true → JournalPuts self.old register new.now self.new }
    {
        if register >= self.registers {
            return Err(StoreRefusal::UnknownRegister);
        }
        if self.entries.len() >= self.places {
            return Err(StoreRefusal::Shut);
        }
        self.add(register, *new);
        Ok(())
    }

    // There are more places than registers, so a cleaning always opens the store. Its first clause is the
    // trait's again: a method with a clause of its own has only those written here.
    fn clean(&mut self, scratch: &mut [Entry<V>]) -> Result<(), StoreRefusal>
        ensures cleaned { Cleaned journal_records journal_open journal_needed JournalCleans (length scratch.old) self.old self.new result }
        ensures leaves_a_free_scratch { FreeScratch scratch.old scratch.new result }
        ensures is_open_after_a_cleaning { is_ok result ≡ true → journal_open self.new ≡ true }
    {
        if scratch.len() < usize::from(self.registers) {
            return Err(StoreRefusal::ShortScratch);
        }
        self.compact(scratch);
        Ok(())
    }
}
