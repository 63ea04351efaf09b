// What a keeper keeps of one register.
ghost use Rattle.std.specs.Prelude.{◌≡◌};
ghost use Rattle.protocol.specs.Records.{new_record};

use crate::round::Round;

// The round that the keeper promised last, the round that it voted in last, and the value it voted for.
#[derive(Clone, Copy)]
pub struct Record<V> {
    pub promised: Round,
    pub voted: Round,
    pub value: V,
}

impl<V: Copy> Record<V> {
    // A record in which nothing was promised or voted yet.
    pub fn new(first: &V) -> Record<V>
        ensures { result ≡ new_record first.now }
    {
        let round = Round::first();
        Record {
            promised: round,
            voted: round,
            value: *first,
        }
    }
}
