// What a meter does with a command.
ghost use Rattle.kinds.specs.Meters.{MakesMeter, zero_meter, add_to};

use crate::meter::{Add, Meter};
use protocol::kind::{Applied, Denial, Kind};
use protocol::refusal::OutOfRange;

// The greatest total, and the greatest amount of one command.
pub const MOST_TOTAL: u32 = 4_000_000_000;

pub const MOST_ADDED: u32 = 1_000_000;

impl TryFrom<u32> for Meter {
    type Error = OutOfRange;

    ghost try_from_gives = { MakesMeter };

    fn try_from(total: u32) -> Result<Meter, OutOfRange> {
        if total > MOST_TOTAL {
            return Err(OutOfRange {});
        }
        Ok(Meter { total })
    }
}

impl Kind for Meter {
    type Command = Add;

    ghost first = { zero_meter };

    ghost applies = { λ meter command. add_to meter command.amount };

    fn start() -> Meter {
        Meter { total: 0 }
    }

    fn apply(&self, command: &Add) -> Result<Applied<Meter>, Denial> {
        let amount = command.amount;
        if !(1..=MOST_ADDED).contains(&amount) {
            return Err(Denial::CommandOutOfRange);
        }
        if amount > MOST_TOTAL - self.total {
            return Err(Denial::TotalPassesTop);
        }
        let total = self.total + amount;
        Ok(Applied::Carried(Meter { total }, total))
    }
}
