// The rules of a keeper: what it does with each message, over the record of the message's register.
ghost use Rattle.std.specs.Prelude.{◌≡◌};
ghost use Rattle.keeper.specs.Steps.{asks, keeper_step, told, reading, promising, raising, preparing, takes_vote, voting};

use crate::refusal::KeeperRefusal;
use crate::step::Step;
use protocol::message::{Access, Body, Head, KeeperId, Message, Number, Promise, State};
use protocol::record::Record;
use protocol::round::Round;

// Whether the message asks a keeper for anything: P, F and V do, A and D are replies.
pub(crate) fn asks_a_keeper<V: Copy>(message: &Message<V>) -> bool
    ensures { result ≡ asks message.now.body }
{
    matches!(
        message.body,
        Body::Prepare(_) | Body::PrepareAt(_) | Body::Vote(..)
    )
}

// A vote is taken above the promised number, and in the promised round itself.
fn takes_vote(promised: &Round, asked: &Round) -> bool
    ensures { result ≡ takes_vote promised.now asked.now }
{
    promised.n < asked.n || promised == asked
}

// A keeper's turn at a message: the keeper, its record of the message's register, and the message's
// head.
#[derive(Clone, Copy)]
struct Turn<'a, V> {
    keeper: KeeperId,
    record: &'a Record<V>,
    head: Head,
}

impl<V: Copy> Turn<'_, V> {
    // The reply A: this promise, and the vote that the record has.
    fn tell(&self, promise: Promise) -> Message<V>
        ensures { result ≡ told self.now.keeper self.now.«record».now self.now.head promise }
    {
        let state = State {
            keeper: self.keeper,
            promise,
            voted: self.record.voted,
            value: self.record.value,
        };
        Message {
            head: self.head,
            body: Body::State(state),
        }
    }

    // P for a read: the keeper only tells, so that no read holds up a write.
    fn read(&self) -> Step<V>
        ensures { result ≡ reading self.now.keeper self.now.«record».now self.now.head }
    {
        Step::Answered(self.tell(Promise::kept(&self.record.promised)))
    }

    // The keeper promises the asking attempt the round with this number; its vote stays.
    fn promise(&self, at: Number) -> Step<V>
        ensures { result ≡ promising self.now.keeper self.now.«record».now self.now.head at }
    {
        let new = Record {
            promised: Round::of(&self.head, at),
            voted: self.record.voted,
            value: self.record.value,
        };
        Step::Stored(new, self.tell(Promise::raised_to(at)))
    }

    // P for a write: the keeper picks the number, the one after the promised.
    fn raise(&self) -> Result<Step<V>, KeeperRefusal>
        ensures { result ≡ raising self.now.keeper self.now.«record».now self.now.head }
    {
        let at = Number::after(&self.record.promised).ok_or(KeeperRefusal::CounterAtTop)?;
        Ok(self.promise(at))
    }

    // F: the hub picks the number, which has to be above the promised one.
    fn prepare(&self, at: Number) -> Result<Step<V>, KeeperRefusal>
        ensures { result ≡ preparing self.now.keeper self.now.«record».now self.now.head at }
    {
        if at.n <= self.record.promised.n {
            return Err(KeeperRefusal::Stale);
        }
        Ok(self.promise(at))
    }

    // V: the keeper votes for the proposed value; the round of the vote is then the promised one, too.
    fn vote(&self, at: Number, proposed: V) -> Result<Step<V>, KeeperRefusal>
        ensures { result ≡ voting self.now.keeper self.now.«record».now self.now.head at proposed }
    {
        let asked = Round::of(&self.head, at);
        if !takes_vote(&self.record.promised, &asked) {
            return Err(KeeperRefusal::Stale);
        }
        let new = Record {
            promised: asked,
            voted: asked,
            value: proposed,
        };
        let reply = Message {
            head: self.head,
            body: Body::Voted(self.keeper, at),
        };
        Ok(Step::Stored(new, reply))
    }
}

// What a keeper does with a message. A and D are replies, and ask it for nothing.
pub(crate) fn step<V: Copy>(
    keeper: KeeperId,
    record: &Record<V>,
    message: &Message<V>,
) -> Result<Step<V>, KeeperRefusal>
    ensures { result ≡ keeper_step keeper «record».now message.now }
{
    let turn = Turn {
        keeper,
        record,
        head: message.head,
    };
    match message.body {
        Body::Prepare(Access::Read) => Ok(turn.read()),
        Body::Prepare(Access::Write) => turn.raise(),
        Body::PrepareAt(at) => turn.prepare(at),
        Body::Vote(at, proposed) => turn.vote(at, proposed),
        Body::State(_) | Body::Voted(..) => Err(KeeperRefusal::WrongMessage),
    }
}
