// What the layer keeps beside the value below, and what it is asked.
ghost use Rattle.std.specs.Prelude.{◌≡◌, ◌^◌, ◌≤◌, length};

pub mod rules;
pub mod table;
pub mod theorems;

// The number of a hub's last write that was carried, and the answer it was given; 0 and 0 before the
// first.
// No Option in the table: an entry with the number 0 may hold any answer, and an Option of one with a
// number from 1 on could not.
#[derive(Clone, Copy)]
pub struct Session {
    pub number: u64,
    pub answer: u32,
    ghost number_within: { number ≤ 2 ^ 40 },
}

// The sessions of hubs 1 to 15 in their order.
// A plain array: the layer allocates nothing, and a value has one fixed size.
#[derive(Clone, Copy)]
pub struct Sessions {
    pub table: [Session; 15],
    ghost whole: { length table ≡ 15 },
}

// A value under the layer.
#[derive(Clone, Copy)]
pub struct Once<K> {
    pub sessions: Sessions,
    pub below: K,
}

// A command for the value below, with the hub that writes and its number for this write.
#[derive(Clone, Copy)]
pub struct Request<C> {
    pub hub: u8,
    pub number: u64,
    pub command: C,
}

// The hub (1 to 15) and number (1 to 2^40) of a request that is in range.
#[derive(Clone, Copy)]
pub struct Writer {
    pub hub: u8,
    pub number: u64,
    ghost hub_from: { 1 ≤ hub },
    ghost hub_within: { hub ≤ 15 },
    ghost number_from: { 1 ≤ number },
    ghost number_within: { number ≤ 2 ^ 40 },
}
