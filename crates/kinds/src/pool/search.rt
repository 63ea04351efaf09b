// The search for the permit to grant.
ghost use Rattle.std.specs.Prelude.{◌≡◌};
ghost use Rattle.kinds.specs.Pools.{search_after, first_free, NearestFree};

use crate::pool::holders::PERMITS;
use crate::pool::{Permit, Pool};

// The search after a permit: the next one when that is free, else the search after the next one, with
// one fewer left to look at. Not a loop: the rule refers to itself, and the code follows it.
pub(crate) fn search(pool: &Pool, after: Option<Permit>, left: u8) -> Option<Permit>
    ensures { result ≡ search_after pool.now after left }
{
    if left == 0 {
        return None;
    }
    let next = Permit::after(after);
    if pool.is_free(next) {
        Some(next)
    } else {
        search(pool, Some(next), left - 1)
    }
}

impl Pool {
    // The first free permit after the one granted last, going round; none where all are held.
    pub fn first_free(&self) -> Option<Permit>
        ensures follows_the_rule { result ≡ first_free self.now }
        ensures is_the_nearest_free_one { NearestFree self.now result }
    {
        search(self, self.last, PERMITS)
    }
}
