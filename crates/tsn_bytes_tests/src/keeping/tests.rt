//! Each call of the device fails in turn, and each crash is tried.
use crate::comparing::same;
use crate::keeping::reading::count_left;
use crate::keeping::working::work;
use std::alloc::{AllocError, Global};
use std::test::*;
use tsn_device::MemoryDevice;
use tsn_keeping::Keeper;
use tsn_recorded::Chain;

// A command that is longer than the buffer of a keeper.
fn long_command(alloc: Global) -> Result<Vec<u8>, AllocError> {
    let mut command = Vec::new(alloc);
    for _ in 0..70_000 {
        command.push(b'x')?;
    }
    Ok(command)
}

// A keeper over an empty device that fails at the call behind so many others, and then takes 40 bytes of an append.
fn keeper_of(alloc: Global, fails_after: Option<u64>) -> Result<Keeper<MemoryDevice>, AllocError> {
    let device = MemoryDevice::new(Vec::new(alloc), fails_after, 40);
    Keeper::new(alloc, device, Chain::new())
}

#[test]
fn each_call_fails_in_turn(rt: HostRuntime) -> Result<(), Fail> {
    let command = long_command(rt.alloc())?;
    for (calls, settled) in [
        (0, 0),
        (1, 0),
        (2, 3),
        (3, 3),
        (4, 3),
        (5, 3),
        (6, 3),
        (7, 3),
        (8, 5),
        (9, 5),
        (10, 6),
    ] {
        let mut keeper = keeper_of(rt.alloc(), Some(calls))?;
        same(&rt, &work(&mut keeper, &command), &settled);
        same(&rt, &keeper.works(), &(settled == 6));
        for most in [0, 1, 69, 70, 71, 100, 65_536, 70_100, 140_200, 1_000_000] {
            let left = count_left(rt.alloc(), keeper.device(), most)?;
            same(&rt, &(left >= settled), &true);
        }
    }
    Ok(())
}

#[test]
fn what_is_settled_is_kept(rt: HostRuntime) -> Result<(), Fail> {
    let command = long_command(rt.alloc())?;
    let mut keeper = keeper_of(rt.alloc(), None)?;
    same(&rt, &work(&mut keeper, &command), &6);
    same(
        &rt,
        &keeper.device().kept(),
        &keeper.device().written().len(),
    );
    same(&rt, &count_left(rt.alloc(), keeper.device(), 0)?, &6);
    Ok(())
}
