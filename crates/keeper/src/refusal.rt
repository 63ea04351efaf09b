// Why a keeper refuses a message.
ghost use Rattle.std.specs.Prelude.{◌≡◌};
ghost use Rattle.keeper.specs.Refusals.{keeper_reason};

use protocol::refusal::Reason;

// In the order in which a keeper looks for them: a message that is none of P, F and V; a register
// that it does not keep; a promise that can be raised no more; a round that is not above the
// promised one; a record to be put while the store is shut.
#[derive(Clone, Copy, PartialEq, Eq, Debug)]
pub enum KeeperRefusal {
    WrongMessage,
    UnknownRegister,
    CounterAtTop,
    Stale,
    StoreShut,
}

impl From<KeeperRefusal> for Reason {
    ghost from_gives = { λ refusal reason. reason ≡ keeper_reason refusal };

    fn from(refusal: KeeperRefusal) -> Reason {
        match refusal {
            KeeperRefusal::WrongMessage => Reason::WrongMessage,
            KeeperRefusal::UnknownRegister => Reason::UnknownRegister,
            KeeperRefusal::CounterAtTop => Reason::CounterAtTop,
            KeeperRefusal::Stale => Reason::Stale,
            KeeperRefusal::StoreShut => Reason::StoreShut,
        }
    }
}
