// Makes rounds and the parts of messages, or refuses what is out of range.
ghost use Rattle.std.specs.Prelude.{◌≡◌};
ghost use Rattle.protocol.specs.Rounds.{MakesRound, MakesHead, MakesNumber, MakesKeeper, number_after, first_round, round_at, promise_kept, promise_raised};

use crate::group::GroupSize;
use crate::message::{Head, KeeperId, Number, Promise};
use crate::refusal::OutOfRange;
use crate::round::Round;

// The top of every counter: round numbers and attempts are at most this.
pub const TOP: u64 = 1 << 40;

impl Round {
    pub fn new(n: u64, hub: u8, attempt: u64) -> Result<Round, OutOfRange>
        ensures { MakesRound n hub attempt result }
    {
        if n > TOP || hub > 15 || attempt > TOP {
            return Err(OutOfRange {});
        }
        Ok(Round { n, hub, attempt })
    }

    // The round in which every register begins.
    pub fn first() -> Round
        ensures { result ≡ first_round }
    {
        Round {
            n: 0,
            hub: 0,
            attempt: 0,
        }
    }

    // The round with the number `at` of the attempt that `head` names.
    pub fn of(head: &Head, at: Number) -> Round
        ensures { result ≡ round_at head.now at }
    {
        Round {
            n: at.n,
            hub: head.hub,
            attempt: head.attempt,
        }
    }
}

impl Head {
    pub fn new(register: u8, hub: u8, attempt: u64) -> Result<Head, OutOfRange>
        ensures { MakesHead register hub attempt result }
    {
        if register > 63 || !(1..=15).contains(&hub) || !(1..=TOP).contains(&attempt) {
            return Err(OutOfRange {});
        }
        Ok(Head {
            register,
            hub,
            attempt,
        })
    }
}

impl TryFrom<u64> for Number {
    type Error = OutOfRange;

    ghost try_from_gives = { MakesNumber };

    fn try_from(n: u64) -> Result<Number, OutOfRange> {
        if !(1..=TOP).contains(&n) {
            return Err(OutOfRange {});
        }
        Ok(Number { n })
    }
}

impl Number {
    // The number after the one of `round`; none after the top.
    pub fn after(round: &Round) -> Option<Number>
        ensures { result ≡ number_after round.now }
    {
        if round.n < TOP {
            Some(Number { n: round.n + 1 })
        } else {
            None
        }
    }
}

impl KeeperId {
    // A keeper of a group has a number below the group's size.
    pub fn new(id: u8, group: GroupSize) -> Result<KeeperId, OutOfRange>
        ensures { MakesKeeper id group result }
    {
        if id < group.keepers() {
            Ok(KeeperId { id })
        } else {
            Err(OutOfRange {})
        }
    }
}

impl Promise {
    // The promise as it was before the message.
    pub fn kept(round: &Round) -> Promise
        ensures { result ≡ promise_kept round.now }
    {
        Promise {
            raised: false,
            n: round.n,
        }
    }

    // The promise that the message raised.
    pub fn raised_to(at: Number) -> Promise
        ensures { result ≡ promise_raised at }
    {
        Promise {
            raised: true,
            n: at.n,
        }
    }
}
