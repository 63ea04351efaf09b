// A keeper of three, with four meters.
use crate::keeper::Keeper;
use crate::refusal::KeeperRefusal;
use kinds::meter::Meter;
use protocol::group::GroupSize;
use protocol::message::{Access, Body, Head, Message, Number, State};
use std::test::Fail;
use stores::table::TableStore;

fn keeper(rt: HostRuntime, id: u8) -> Result<Keeper<TableStore<Meter>>, Fail> {
    let store = TableStore::<Meter>::new(rt.alloc(), 4)?;
    Keeper::new(id, GroupSize::Three, store).map_err(|_| Fail::new("not below the group's size"))
}

// The first attempt of hub 1 asks this of a register.
fn asked<V: Copy>(register: u8, body: Body<V>) -> Result<Message<V>, Fail> {
    let head = Head::new(register, 1, 1)?;
    Ok(Message { head, body })
}

fn told<V: Copy>(reply: &Message<V>) -> Result<State<V>, Fail> {
    match reply.body {
        Body::State(state) => Ok(state),
        _ => Err(Fail::new("no A")),
    }
}

#[test]
fn a_read_changes_nothing(rt: HostRuntime) -> Result<(), Fail> {
    let mut keeper = keeper(rt, 0)?;
    let read = asked(3, Body::Prepare(Access::Read))?;
    keeper.receive(&read)?;
    let state = told(&keeper.receive(&read)?)?;
    assert!(rt; !state.promise.raised && state.promise.n == 0 && state.voted.n == 0);
    assert_eq!(rt; state.value.total, 0);
    Ok(())
}

#[test]
fn what_is_voted_is_read(rt: HostRuntime) -> Result<(), Fail> {
    let mut keeper = keeper(rt, 2)?;
    let promised = told(&keeper.receive(&asked(3, Body::Prepare(Access::Write))?)?)?.promise;
    assert!(rt; promised.raised);
    let vote = Body::Vote(Number::try_from(promised.n)?, Meter::try_from(7)?);
    keeper.receive(&asked(3, vote)?)?;
    let state = told(&keeper.receive(&asked(3, Body::Prepare(Access::Read))?)?)?;
    assert_eq!(rt; state.voted.n, 1);
    assert_eq!(rt; state.value.total, 7);
    Ok(())
}

#[test]
fn refusals_say_why(rt: HostRuntime) -> Result<(), Fail> {
    let mut keeper = keeper(rt, 1)?;
    let at = Number::try_from(4)?;
    let voted = keeper.receive(&asked(3, Body::Vote(at, Meter::try_from(7)?))?)?;
    assert_eq!(rt;
        keeper.receive(&asked(3, Body::PrepareAt(at))?).err(),
        Some(KeeperRefusal::Stale)
    );
    assert_eq!(rt;
        keeper.receive(&asked(4, Body::PrepareAt(at))?).err(),
        Some(KeeperRefusal::UnknownRegister)
    );
    assert_eq!(rt;
        keeper.receive(&voted).err(),
        Some(KeeperRefusal::WrongMessage)
    );
    Ok(())
}

#[test]
fn a_keeper_is_below_the_size(rt: HostRuntime) -> Result<(), Fail> {
    let store = TableStore::<Meter>::new(rt.alloc(), 4)?;
    assert!(rt; Keeper::new(3, GroupSize::Three, store).is_err());
    Ok(())
}
