// What a pool does with a command.
ghost use Rattle.std.specs.Prelude.{◌≡◌};
ghost use Rattle.kinds.specs.Pools.{new_pool, pool_applies, with_holder, taking, giving_back};

use crate::pool::{Flat, Holder, Permit, Pool, PoolCommand};
use protocol::kind::{Applied, Denial, Kind};

impl Pool {
    // The pool in which this is the holder of the permit.
    fn with_holder(&self, permit: Permit, holder: Option<Flat>) -> Pool
        ensures { result ≡ with_holder self.now permit holder }
    {
        let mut pool = *self;
        pool.holders[permit.number as usize - 1] = holder.into();
        pool
    }

    // A take: the first free permit after the last granted, which then is the last granted.
    fn take(&self, flat: Flat) -> Result<Applied<Pool>, Denial>
        ensures { result ≡ taking self.now flat }
    {
        let permit = self.first_free().ok_or(Denial::NoPermitFree)?;
        let mut pool = self.with_holder(permit, Some(flat));
        pool.last = Some(permit);
        Ok(Applied::Carried(pool, permit.number as u32))
    }

    // A give-back: only by the holder. The answer counts the permits that stay held.
    fn give_back(&self, permit: Permit, flat: Flat) -> Result<Applied<Pool>, Denial>
        ensures { result ≡ giving_back self.now permit flat }
    {
        if self.holder_of(permit) != Some(flat) {
            return Err(Denial::NotTheHolder);
        }
        let after = self.with_holder(permit, None);
        Ok(Applied::Carried(after, after.held()))
    }
}

impl Kind for Pool {
    type Command = PoolCommand;

    ghost first = { new_pool };

    ghost applies = { pool_applies };

    fn start() -> Pool {
        Pool {
            holders: [Holder::from(None); 32],
            last: None,
        }
    }

    fn apply(&self, command: &PoolCommand) -> Result<Applied<Pool>, Denial> {
        match *command {
            PoolCommand::Take { flat } => self.take(Flat::try_from(flat)?),
            PoolCommand::GiveBack { permit, flat } => {
                self.give_back(Permit::try_from(permit)?, Flat::try_from(flat)?)
            }
        }
    }
}
