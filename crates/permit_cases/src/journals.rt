// Journal stores that fill, are refused, are cleaned and go on, for one, four and all registers.
use journal::journal::JournalStore;
use keeper::keeper::Keeper;
use keeper::refusal::KeeperRefusal;
use kinds::meter::Meter;
use kinds::pool::Pool;
use once::layer::Once;
use protocol::group::GroupSize;
use protocol::kind::Kind;
use protocol::message::{Access, Body, Head, Message};
use protocol::record::Record;
use protocol::refusal::StoreRefusal;
use protocol::store::{Entry, Store};
use std::alloc::Global;
use std::process::Abort;
use std::test::*;
use stores::making::NoStore;

// The record that is put as the n-th: a meter with the total n.
fn nth(n: u32) -> Result<Record<Meter>, Fail> {
    Ok(Record::new(&Meter::try_from(n)?))
}

// Puts so many records, from this one on, going round the registers.
fn fill<S: Store<Value = Meter>>(
    store: &mut S,
    registers: u8,
    from: u32,
    count: u32,
    rt: &impl Abort,
) -> Result<(), Fail> {
    assert!(rt; registers > 0 && from < 1000 && count < 1000);
    for n in from..from + count {
        let record = nth(n)?;
        store.put((n % registers as u32) as u8, &record)?;
    }
    Ok(())
}

// Cleans with a scratch of so many entries, at most 64.
fn clean<S: Store<Value = Meter>>(
    store: &mut S,
    entries: usize,
    rt: &impl Abort,
) -> Result<Option<StoreRefusal>, Fail> {
    let blank = Entry {
        register: 0,
        record: nth(0)?,
    };
    let mut scratch = [blank; 64];
    assert!(rt; entries <= 64);
    Ok(store.clean(&mut scratch[0..entries]).err())
}

// What refuses a put for the register, if anything does.
fn put<S: Store<Value = Meter>>(store: &mut S, register: u8) -> Result<Option<StoreRefusal>, Fail> {
    Ok(store.put(register, &nth(900)?).err())
}

// Three places for each register: they fill, and all but one for each come free again.
fn fills_and_goes_on(rt: &impl Abort, alloc: Global, registers: u8) -> Result<(), Fail> {
    assert!(rt; 0 < registers && registers <= 64);
    let count = registers as u32;
    let mut store = JournalStore::<Meter>::new(alloc, registers, 3 * registers as usize)?;
    fill(&mut store, registers, 0, 3 * count, rt)?;
    assert_eq!(rt; put(&mut store, 0)?, Some(StoreRefusal::Shut));
    assert_eq!(rt;
        put(&mut store, registers)?,
        Some(StoreRefusal::UnknownRegister)
    );
    let short = clean(&mut store, registers as usize - 1, rt)?;
    assert_eq!(rt; short, Some(StoreRefusal::ShortScratch));
    assert_eq!(rt; clean(&mut store, registers as usize, rt)?, None);
    assert_eq!(rt; store.get(registers - 1)?.value.total, 3 * count - 1);
    fill(&mut store, registers, 3 * count, 2 * count, rt)?;
    assert_eq!(rt; put(&mut store, 0)?, Some(StoreRefusal::Shut));
    assert_eq!(rt; store.get(0)?.value.total, 4 * count);
    Ok(())
}

#[test]
fn a_journal_for_one_register_goes_on(rt: HostRuntime) -> Result<(), Fail> {
    fills_and_goes_on(&rt, rt.alloc(), 1)
}

#[test]
fn a_journal_for_four_registers_goes_on(rt: HostRuntime) -> Result<(), Fail> {
    fills_and_goes_on(&rt, rt.alloc(), 4)
}

#[test]
fn a_journal_for_all_registers_goes_on(rt: HostRuntime) -> Result<(), Fail> {
    fills_and_goes_on(&rt, rt.alloc(), 64)
}

fn refused(rt: &HostRuntime, registers: u8, places: usize) -> Option<NoStore> {
    JournalStore::<Meter>::new(rt.alloc(), registers, places).err()
}

#[test]
fn journals_have_their_ranges(rt: HostRuntime) -> Result<(), Fail> {
    assert_eq!(rt; refused(&rt, 4, 5), None);
    assert_eq!(rt; refused(&rt, 64, 65536), None);
    assert_eq!(rt; refused(&rt, 0, 5), Some(NoStore::OutOfRange));
    assert_eq!(rt; refused(&rt, 65, 100), Some(NoStore::OutOfRange));
    assert_eq!(rt; refused(&rt, 4, 4), Some(NoStore::OutOfRange));
    assert_eq!(rt; refused(&rt, 4, 65537), Some(NoStore::OutOfRange));
    Ok(())
}

fn prepare(attempt: u64) -> Result<Message<Once<Pool>>, Fail> {
    let head = Head::new(0, 1, attempt)?;
    let body = Body::Prepare(Access::Write);
    Ok(Message { head, body })
}

// A keeper with permits in a journal of two places: the third promise waits for a cleaning.
#[test]
fn a_keeper_of_permits_is_cleaned(rt: HostRuntime) -> Result<(), Fail> {
    let store = JournalStore::<Once<Pool>>::new(rt.alloc(), 1, 2)?;
    let mut keeper = Keeper::new(0, GroupSize::Three, store).map_err(|_| Fail::new("no keeper"))?;
    let mut scratch = [Entry {
        register: 0,
        record: Record::new(&Once::<Pool>::start()),
    }; 1];
    keeper.receive(&prepare(1)?)?;
    keeper.receive(&prepare(2)?)?;
    let refused = keeper.receive(&prepare(3)?).err();
    assert_eq!(rt; refused, Some(KeeperRefusal::StoreShut));
    keeper.clean(&mut scratch)?;
    assert!(rt; keeper.receive(&prepare(3)?).is_ok());
    Ok(())
}
