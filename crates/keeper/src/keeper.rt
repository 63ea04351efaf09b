// A keeper over any store.
ghost use Rattle.std.specs.Prelude.{◌≡◌, false, length, is_ok};
ghost use Rattle.protocol.specs.Stores.{Cleaned};
ghost use Rattle.keeper.specs.Keepers.{MakesKeeperOver, Received};

use crate::refusal::KeeperRefusal;
use crate::rules::{asks_a_keeper, step};
use crate::step::Step;
use protocol::group::GroupSize;
use protocol::message::{KeeperId, Message};
use protocol::refusal::{OutOfRange, StoreRefusal};
use protocol::store::{Entry, Store};

// All that a keeper keeps from message to message is in its store.
#[derive(Drop)]
pub struct Keeper<S: Store> {
    id: KeeperId,
    store: S,
}

// No keeper was made, and here is the store back.
#[derive(Drop)]
pub struct NoKeeper<S> {
    pub refusal: OutOfRange,
    pub store: S,
}

impl<S: Store> Keeper<S> {
    // A keeper of a group has a number below the group's size.
    pub fn new(id: u8, group: GroupSize, store: S) -> Result<Keeper<S>, NoKeeper<S>>
        ensures { MakesKeeperOver id group store result }
    {
        // Not map and map_err: the store goes into the one or into the other.
        match KeeperId::new(id, group) {
            Ok(id) => Ok(Keeper { id, store }),
            Err(refusal) => Err(NoKeeper { refusal, store }),
        }
    }

    // Takes a message, and replies to it. The new record is in the store before the reply is out, so
    // that what a keeper has promised or voted it does not forget.
    pub fn receive(
        &mut self,
        message: &Message<S::Value>,
    ) -> Result<Message<S::Value>, KeeperRefusal>
        ensures { Received S.Store.records S.Store.opened self.old message.now result self.new }
    {
        if !asks_a_keeper(message) {
            return Err(KeeperRefusal::WrongMessage);
        }
        let register = message.head.register;
        // Not From<StoreRefusal>: that has a case for a short scratch, which no message meets.
        let record = self
            .store
            .get(register)
            .map_err(|_| KeeperRefusal::UnknownRegister)?;
        match step(self.id, &record, message)? {
            Step::Answered(reply) => Ok(reply),
            Step::Stored(new, reply) => {
                self.store
                    .put(register, &new)
                    .map_err(|_| KeeperRefusal::StoreShut)?;
                Ok(reply)
            }
        }
    }

    // Makes room in the store. It is the caller's to say when, since it takes time and a scratch. The
    // store's ghost members stand one by one, as in the trait.
    pub fn clean(&mut self, scratch: &mut [Entry<S::Value>]) -> Result<(), StoreRefusal>
        ensures cleaned { Cleaned S.Store.records S.Store.opened S.Store.needed S.Store.cleans (length scratch.old) self.old.store self.new.store result }
        ensures keeps_its_number { self.new.id ≡ self.old.id }
        ensures a_refusal_changes_nothing { is_ok result ≡ false → self.new ≡ self.old }
    {
        self.store.clean(scratch)
    }
}
