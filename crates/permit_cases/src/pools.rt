// A pool that is filled, drained and gone round.
use crate::commands::{carried, denied};
use kinds::pool::{Pool, PoolCommand};
use protocol::kind::Kind;
use std::process::Abort;
use std::test::*;

fn take(flat: u8) -> PoolCommand {
    PoolCommand::Take { flat }
}

fn give_back(permit: u8, flat: u8) -> PoolCommand {
    PoolCommand::GiveBack { permit, flat }
}

// Flats 1 to 32 take a permit each.
fn full(rt: &impl Abort) -> Result<Pool, Fail> {
    let mut pool = Pool::start();
    for flat in 1..33 {
        assert_eq!(rt; carried(&mut pool, &take(flat))?, flat as u32);
    }
    Ok(pool)
}

#[test]
fn a_full_pool_grants_none(rt: HostRuntime) -> Result<(), Fail> {
    let pool = full(&rt)?;
    assert_eq!(rt; denied(&pool, &take(200)), Some(2));
    Ok(())
}

#[test]
fn a_pool_is_drained(rt: HostRuntime) -> Result<(), Fail> {
    let mut pool = full(&rt)?;
    for flat in 1..33 {
        assert_eq!(rt; denied(&pool, &give_back(flat, flat + 1)), Some(3));
        assert_eq!(rt;
            carried(&mut pool, &give_back(flat, flat))?,
            32 - flat as u32
        );
        assert_eq!(rt; denied(&pool, &give_back(flat, flat)), Some(3));
    }
    assert_eq!(rt; carried(&mut pool, &take(7))?, 1);
    Ok(())
}

#[test]
fn the_search_goes_round(rt: HostRuntime) -> Result<(), Fail> {
    let mut pool = full(&rt)?;
    assert_eq!(rt; carried(&mut pool, &give_back(5, 5))?, 31);
    assert_eq!(rt; carried(&mut pool, &give_back(30, 30))?, 30);
    assert_eq!(rt; carried(&mut pool, &take(101))?, 5);
    assert_eq!(rt; carried(&mut pool, &take(102))?, 30);
    assert_eq!(rt; carried(&mut pool, &give_back(5, 101))?, 31);
    assert_eq!(rt; carried(&mut pool, &give_back(31, 31))?, 30);
    assert_eq!(rt; carried(&mut pool, &take(103))?, 31);
    assert_eq!(rt; carried(&mut pool, &take(104))?, 5);
    Ok(())
}

#[test]
fn commands_have_their_ranges(rt: HostRuntime) -> Result<(), Fail> {
    let pool = full(&rt)?;
    assert_eq!(rt; denied(&pool, &take(0)), Some(1));
    assert_eq!(rt; denied(&pool, &take(201)), Some(1));
    assert_eq!(rt; denied(&pool, &give_back(0, 1)), Some(1));
    assert_eq!(rt; denied(&pool, &give_back(33, 1)), Some(1));
    assert_eq!(rt; denied(&pool, &give_back(1, 0)), Some(1));
    assert_eq!(rt; denied(&pool, &give_back(1, 201)), Some(1));
    Ok(())
}
