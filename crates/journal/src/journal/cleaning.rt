// Makes room in a journal store: of each register only the latest entry stays.
ghost use Rattle.std.specs.Prelude.{◌≡◌, ◌<◌, ◌≤◌, length, drop, vec_capacity, All};
ghost use Rattle.journal.specs.Journals.{puts_of, kept, JournalCleans};

use crate::journal::JournalStore;
use protocol::store::Entry;

// Whether some entry is of the register.
fn holds<V: Copy>(entries: &[Entry<V>], register: u8) -> bool
    ensures { result ≡ puts_of entries.now register }
{
    entries.iter().any(|entry| entry.register == register)
}

// Writes the latest entry of each register into the end of `own`, in the order of putting, and says
// where they begin. It goes from the newest entry to the oldest, so the first that it meets of a
// register is the latest; filling `own` from its end keeps their order. It answers a place and no slice:
// a contract on a slice of what is lent for changing would be no plainer.
fn gather<V: Copy>(entries: &[Entry<V>], own: &mut [Entry<V>]) -> usize
    requires { All (λ e. e.register < length own.old) entries.now }
    ensures within { result ≤ length own.new }
    ensures gathered { drop result own.new ≡ kept entries.now }
{
    let mut from = own.len();
    for entry in entries.iter().rev() {
        let (_, gathered) = own.split_at(from);
        if !holds(gathered, entry.register) {
            from -= 1;
            own[from] = *entry;
        }
    }
    from
}

// Puts other entries in the stead of those that were there. Not extend_from_slice: it does not
// say that the capacity stays.
fn refill<V: Copy>(entries: &mut Vec<Entry<V>>, kept: &[Entry<V>])
    requires { length kept.now ≤ vec_capacity entries.old }
    ensures items { entries.new.items ≡ kept.now }
    ensures same_capacity { vec_capacity entries.new ≡ vec_capacity entries.old }
{
    entries.clear();
    for entry in kept {
        entries.push_reserved(*entry);
    }
}

impl<V: Copy> JournalStore<V> {
    // Keeps the latest entry of each register put so far. Of the scratch it uses an entry for each register.
    pub(super) fn compact(&mut self, scratch: &mut [Entry<V>])
        requires { self.old.registers ≤ length scratch.old }
        ensures cleans { JournalCleans self.old self.new }
        ensures same_length { length scratch.new ≡ length scratch.old }
    {
        let own = &mut scratch[..usize::from(self.registers)];
        let from = gather(self.entries.as_slice(), own);
        let (_, gathered) = own.split_at(from);
        refill(&mut self.entries, gathered);
    }
}
