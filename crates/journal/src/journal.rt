// The journal store: each put goes into the next place, and a cleaning makes room again.
ghost use Rattle.std.specs.Prelude.{◌+◌, ◌<◌, ◌≤◌, vec_len, vec_capacity, All};

use protocol::record::Record;
use protocol::store::Entry;

pub mod cleaning;
pub mod keeping;
pub mod making;

// The entries stand in the order of putting, the newest last; a register that was never put has the
// record `fresh`. A place more than there are registers leaves room for a put after every cleaning.
#[derive(Drop)]
pub struct JournalStore<V: Copy> {
    entries: Vec<Entry<V>>,
    registers: u8,
    places: usize,
    fresh: Record<V>,
    ghost registers_from: { 1 ≤ registers },
    ghost registers_within: { registers ≤ 64 },
    ghost places_from: { registers + 1 ≤ places },
    ghost places_within: { places ≤ 65536 },
    ghost entries_within: { vec_len entries ≤ places },
    ghost room_reserved: { places ≤ vec_capacity entries },
    ghost known_registers: { All (λ e. e.register < registers) entries.items },
}
