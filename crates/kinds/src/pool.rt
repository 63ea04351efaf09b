// A pool: the heating permits of a house, and who holds each.
ghost use Rattle.std.specs.Prelude.{◌≡◌, ◌≤◌, length};

pub mod holders;
pub mod rules;
pub mod search;
pub mod theorems;

// A permit, by its number: 1 to 32.
#[derive(Clone, Copy, PartialEq, Eq, Debug)]
pub struct Permit {
    pub number: u8,
    ghost from: { 1 ≤ number },
    ghost within: { number ≤ 32 },
}

// A flat, by its number: 1 to 200. Not one type with its top as a parameter: then a flat and a permit
// would be told apart only by how many there are.
#[derive(Clone, Copy, PartialEq, Eq, Debug)]
pub struct Flat {
    pub number: u8,
    ghost from: { 1 ≤ number },
    ghost within: { number ≤ 200 },
}

// Who holds a permit, as a pool keeps it: the number of the flat, or 0 where nobody does. One byte, where an
// Option<Flat> takes two, and a journal may keep 65,536 pools.
#[derive(Clone, Copy)]
pub struct Holder {
    pub number: u8,
    ghost within: { number ≤ 200 },
}

// Who holds permits 1 to 32, in their order, and the permit that was granted last. An array and no Vec:
// the memory is fixed, none on the heap.
#[derive(Clone, Copy)]
pub struct Pool {
    pub holders: [Holder; 32],
    pub last: Option<Permit>,
    ghost whole: { length holders ≡ 32 },
}

// What a flat asks of the pool: any permit for itself, or to give one back. A number here may be any: one
// that no flat or permit has is denied.
#[derive(Clone, Copy)]
pub enum PoolCommand {
    Take { flat: u8 },
    GiveBack { permit: u8, flat: u8 },
}
