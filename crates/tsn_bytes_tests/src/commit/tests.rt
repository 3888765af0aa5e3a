//! What who records and settles is told, and what the device then keeps.
use crate::commit::reading::count_lines;
use crate::commit::working::{kept_by_four, recorded, settled};
use crate::comparing::same;
use std::alloc::{AllocError, Global};
use std::test::*;

// A line of so many bytes.
fn line_of(alloc: Global, len: u64) -> Result<Vec<u8>, AllocError> {
    let mut line = Vec::new(alloc);
    for _ in 0..len {
        line.push(b'x')?;
    }
    Ok(line)
}

#[test]
fn nothing_settles_behind_a_failed_call(rt: HostRuntime) -> Result<(), Fail> {
    for (calls, wanted) in [
        (0, (false, false, false)),
        (1, (false, false, false)),
        (2, (true, false, true)),
        (3, (true, false, true)),
        (4, (true, true, true)),
    ] {
        let told = settled(&rt, rt.alloc(), Some(calls), 7, b"{\"do\":\"hello\"}")?;
        same(&rt, &told, &wanted);
    }
    Ok(())
}

#[test]
fn one_sync_serves_all_that_wait(rt: HostRuntime) -> Result<(), Fail> {
    let Some(keeper) = recorded(&rt, rt.alloc(), Some(2), b"one", 5)? else {
        return Ok(same(&rt, &"stopped", &"kept"));
    };
    let text = keeper.device().written();
    same(&rt, &count_lines(rt.alloc(), text, b"one")?, &(5, 5));
    Ok(())
}

#[test]
fn a_record_waits_for_room(rt: HostRuntime) -> Result<(), Fail> {
    let line = line_of(rt.alloc(), 131_072)?;
    let Some(keeper) = recorded(&rt, rt.alloc(), None, &line, 20)? else {
        return Ok(same(&rt, &"stopped", &"kept"));
    };
    let text = keeper.device().written();
    same(&rt, &keeper.device().kept(), &text.len());
    same(&rt, &count_lines(rt.alloc(), text, &line)?, &(20, 20));
    Ok(())
}

#[test]
fn lines_of_four_threads_are_kept(rt: HostRuntime) -> Result<(), Fail> {
    let Some(keeper) = kept_by_four(&rt, rt.alloc(), None, b"one", b"other")? else {
        return Ok(same(&rt, &"stopped", &"kept"));
    };
    let text = keeper.device().written();
    same(&rt, &keeper.device().kept(), &text.len());
    same(&rt, &count_lines(rt.alloc(), text, b"one")?, &(4000, 2000));
    same(
        &rt,
        &count_lines(rt.alloc(), text, b"other")?,
        &(4000, 2000),
    );
    Ok(())
}

#[test]
fn all_come_back_where_the_device_fails(rt: HostRuntime) -> Result<(), Fail> {
    for calls in 0..200u64 {
        let kept = kept_by_four(&rt, rt.alloc(), Some(calls), b"one", b"other")?;
        same(&rt, &kept.is_none(), &true);
    }
    Ok(())
}
