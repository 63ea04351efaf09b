// The five messages between hubs and keepers. Each part carries its range as a ghost field, so that
// no message exists outside the ranges, whoever makes it.
ghost use Rattle.std.specs.Prelude.{◌≡◌, ◌^◌, ◌≤◌, true};

use crate::round::Round;

// Where a message belongs: the register, and the hub and attempt that ask.
#[derive(Clone, Copy)]
pub struct Head {
    pub register: u8,
    pub hub: u8,
    pub attempt: u64,
    ghost register_within: { register ≤ 63 },
    ghost hub_from: { 1 ≤ hub },
    ghost hub_within: { hub ≤ 15 },
    ghost attempt_from: { 1 ≤ attempt },
    ghost attempt_within: { attempt ≤ 2 ^ 40 },
}

// The number of a round that a hub asks for: never that of the first round.
#[derive(Clone, Copy)]
pub struct Number {
    pub n: u64,
    ghost from: { 1 ≤ n },
    ghost within: { n ≤ 2 ^ 40 },
}

// A keeper's number (in the field: a keeper is an acceptor).
#[derive(Clone, Copy)]
pub struct KeeperId {
    pub id: u8,
    ghost within: { id ≤ 6 },
}

// The number that a keeper has promised, and whether it was raised for the very message that it
// answers: then a round with that number was granted to the asking attempt.
// A flag and not two cases: the number is told whether it was raised or not, so both would hold it.
#[derive(Clone, Copy)]
pub struct Promise {
    pub raised: bool,
    pub n: u64,
    ghost within: { n ≤ 2 ^ 40 },
    ghost from_one_where_raised: { (raised ≡ true → 1 ≤ n) },
}

// What a prepare is for. A read leaves the promise as it is; a write raises it.
#[derive(Clone, Copy)]
pub enum Access {
    Read,
    Write,
}

// What a keeper tells of its record.
#[derive(Clone, Copy)]
pub struct State<V> {
    pub keeper: KeeperId,
    pub promise: Promise,
    pub voted: Round,
    pub value: V,
}

// A hub (in the field: a proposer) asks by the first three, a keeper replies by the last two.
#[derive(Clone, Copy)]
pub enum Body<V> {
    // P: tell the record, and for a write promise the next number.
    Prepare(Access),
    // F: promise this number.
    PrepareAt(Number),
    // V: vote for this value in the round with this number.
    Vote(Number, V),
    // A: what the keeper's record is now.
    State(State<V>),
    // D: the keeper voted in the round with this number.
    Voted(KeeperId, Number),
}

#[derive(Clone, Copy)]
pub struct Message<V> {
    pub head: Head,
    pub body: Body<V>,
}
