//! Tables: copies, room for many rows and for the most, the largest table, and threads.
use crate::comparing::same;
use std::alloc::{AllocError, Global};
use std::process::Abort;
use std::test::Fail;
use std::thread::{Threads, join};
use tsn_table::Table;

// A table of the numbers 4, 1 and 6, which come in this order; each row is ten times its number.
fn three_rows(alloc: Global) -> Result<Table<u64>, AllocError> {
    let mut table = Table::new(alloc);
    table.reserve(3)?;
    let _ = table.put(4, 40);
    let _ = table.put(1, 10);
    let _ = table.put(6, 60);
    Ok(table)
}

// The rows of a table have just these numbers.
fn has_ids(
    rt: &impl Abort,
    alloc: Global,
    table: &Table<u64>,
    wanted: &[u64],
) -> Result<(), AllocError> {
    same(rt, &table.ids(alloc)?.as_slice(), &wanted);
    Ok(())
}

#[test]
fn copies_every_row(rt: HostRuntime) -> Result<(), Fail> {
    let table = three_rows(rt.alloc())?;
    let copy = table.copy(|row| Ok(*row))?;
    has_ids(&rt, rt.alloc(), &copy, &[1, 4, 6])?;
    same(&rt, &copy.get(4).copied(), &Some(40));
    Ok(())
}

#[test]
fn a_reserve_of_10000_rows_keeps_the_rows(rt: HostRuntime) -> Result<(), Fail> {
    let mut table = three_rows(rt.alloc())?;
    table.reserve(10_000)?;
    same(&rt, &table.put(9, 90), &None);
    has_ids(&rt, rt.alloc(), &table, &[1, 4, 6, 9])?;
    Ok(())
}

// For how many places an undo of all asks that takes back 131,072 entries of 16 parts: two of a session for each entry,
// and three for each part.
const GREATEST: usize = 131_072 * (2 + 3 * 16);

#[test]
fn the_greatest_reserve_is_granted(rt: HostRuntime) -> Result<(), Fail> {
    let mut table = three_rows(rt.alloc())?;
    table.reserve(GREATEST)?;
    same(&rt, &table.put(9, 90), &None);
    table.reserve(GREATEST)?;
    same(&rt, &table.get(6).copied(), &Some(60));
    same(&rt, &table.get(9).copied(), &Some(90));
    Ok(())
}

// As many rows as the largest table of a bridge has, each where it is guessed to; then a half of them is taken out
// again, and each of the others is still there.
#[test]
fn the_largest_table_is_listed_and_copied(rt: HostRuntime) -> Result<(), Fail> {
    let mut table = Table::new(rt.alloc());
    for below in 0..65_536 {
        let id = 65_535 - below;
        table.reserve(1)?;
        let _ = table.put(id, below);
    }
    let copy = table.copy(|row| Ok(*row))?;
    let ids = copy.ids(rt.alloc())?;
    same(&rt, &ids.len(), &65_536);
    for place in 0..65_536 {
        same(&rt, &ids.get(place).copied(), &Some(place as u64));
    }
    same(&rt, &copy.get(0).copied(), &Some(65_535));
    same(&rt, &copy.get(65_535).copied(), &Some(0));
    table.reserve(1)?;
    for id in 0..65_536 {
        same(&rt, &table.is_guessed(id), &true);
    }
    for half in 0..32_768 {
        same(&rt, &table.take(2 * half), &Some(65_535 - 2 * half));
    }
    for half in 0..32_768 {
        same(&rt, &table.get(2 * half).copied(), &None);
        same(&rt, &table.is_guessed(2 * half), &false);
        same(&rt, &table.is_guessed(2 * half + 1), &true);
        same(
            &rt,
            &table.get(2 * half + 1).copied(),
            &Some(65_534 - 2 * half),
        );
    }
    Ok(())
}

// What two threads find in one table.
fn found_by_two<R: Threads + Sync>(rt: &R, table: &Table<u64>) -> (Option<u64>, Option<u64>) {
    join(rt, || table.get(4).copied(), || table.get(6).copied())
}

#[test]
fn threads_share_a_table(rt: HostRuntime) -> Result<(), Fail> {
    let table = three_rows(rt.alloc())?;
    same(&rt, &found_by_two(&rt, &table), &(Some(40), Some(60)));
    Ok(())
}
