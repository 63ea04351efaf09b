// Writes that are repeated, overtaken and out of range, on a pool under the once-only layer.
use crate::commands::{already, carried, denied};
use kinds::pool::{Pool, PoolCommand};
use once::layer::{Once, Request};
use protocol::kind::Kind;
use std::test::*;

fn take(hub: u8, number: u64) -> Request<PoolCommand> {
    let command = PoolCommand::Take { flat: 7 };
    Request {
        hub,
        number,
        command,
    }
}

fn give_back(hub: u8, number: u64, permit: u8) -> Request<PoolCommand> {
    let command = PoolCommand::GiveBack { permit, flat: 7 };
    Request {
        hub,
        number,
        command,
    }
}

#[test]
fn a_repeated_write_counts_once(rt: HostRuntime) -> Result<(), Fail> {
    let mut value = Once::<Pool>::start();
    assert_eq!(rt; carried(&mut value, &take(3, 5))?, 1);
    assert_eq!(rt; already(&value, &take(3, 5))?, 1);
    assert_eq!(rt; denied(&value, &take(3, 4)), Some(6));
    assert_eq!(rt; carried(&mut value, &take(3, 6))?, 2);
    assert_eq!(rt; denied(&value, &take(3, 5)), Some(6));
    Ok(())
}

#[test]
fn every_hub_has_its_own_numbers(rt: HostRuntime) -> Result<(), Fail> {
    let mut value = Once::<Pool>::start();
    assert_eq!(rt; carried(&mut value, &take(1, 9))?, 1);
    assert_eq!(rt; carried(&mut value, &take(15, 1))?, 2);
    assert_eq!(rt; already(&value, &take(1, 9))?, 1);
    assert_eq!(rt; already(&value, &take(15, 1))?, 2);
    Ok(())
}

#[test]
fn a_denied_write_leaves_no_entry(rt: HostRuntime) -> Result<(), Fail> {
    let mut value = Once::<Pool>::start();
    assert_eq!(rt; denied(&value, &give_back(2, 1, 9)), Some(3));
    assert_eq!(rt; carried(&mut value, &take(2, 1))?, 1);
    assert_eq!(rt; carried(&mut value, &give_back(2, 2, 1))?, 0);
    Ok(())
}

#[test]
fn requests_have_their_ranges(rt: HostRuntime) -> Result<(), Fail> {
    let top = 1 << 40;
    let mut value = Once::<Pool>::start();
    assert_eq!(rt; denied(&value, &take(0, 1)), Some(1));
    assert_eq!(rt; denied(&value, &take(16, 1)), Some(1));
    assert_eq!(rt; denied(&value, &take(1, 0)), Some(1));
    assert_eq!(rt; denied(&value, &take(1, top + 1)), Some(1));
    assert_eq!(rt; carried(&mut value, &take(1, top))?, 1);
    Ok(())
}
