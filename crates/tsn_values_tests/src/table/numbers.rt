//! Sets of numbers: copies, room for many at once, for the most and for absurdly many, and threads.
use crate::comparing::same;
use std::alloc::{AllocError, Global};
use std::process::Abort;
use std::test::Fail;
use std::thread;
use std::thread::{Threads, join};
use tsn_table::Numbers;

// The set of the numbers 4, 1 and 6, which come in this order.
fn three_numbers(alloc: Global) -> Result<Numbers, AllocError> {
    let mut numbers = Numbers::new(alloc);
    numbers.reserve(3)?;
    numbers.put(4);
    numbers.put(1);
    numbers.put(6);
    Ok(numbers)
}

// The numbers from the least on, at most so many.
fn listed(numbers: &Numbers, alloc: Global, most: usize) -> Result<Vec<u64>, AllocError> {
    let mut list = Vec::new(alloc);
    let mut from = 0;
    for _ in 0..most {
        let Some(number) = numbers.first_from(from) else {
            return Ok(list);
        };
        list.push(number)?;
        from = number.saturating_add(1);
    }
    Ok(list)
}

#[test]
fn copies_every_number(rt: HostRuntime) -> Result<(), Fail> {
    let mut numbers = three_numbers(rt.alloc())?;
    let copy = numbers.copy()?;
    numbers.take(4);
    let list = listed(&copy, rt.alloc(), 9)?;
    same(&rt, &list.as_slice(), &[1, 4, 6].as_slice());
    Ok(())
}

// How many numbers the largest tables have.
const MANY: u64 = 65_536;

// Each number is found, goes, and is found no more. They go in an order that jumps about: 40,503 is odd, so each number
// comes once.
fn emptied(rt: &impl Abort, mut numbers: Numbers) {
    for n in 0..MANY {
        let number = n.wrapping_mul(40_503) % MANY;
        same(rt, &numbers.first_from(number), &Some(number));
        numbers.take(number);
        let next = numbers.first_from(number);
        same(rt, &(next == Some(number)), &false);
    }
    same(rt, &numbers.first_from(0), &None);
}

// All room is made at the first number that comes in, beside some that are there.
#[test]
fn much_room_at_once(rt: HostRuntime) -> Result<(), Fail> {
    let mut numbers = Numbers::new(rt.alloc());
    for n in 0..100 {
        numbers.reserve(1)?;
        numbers.put(n * 600);
    }
    for n in 0..MANY {
        numbers.reserve((MANY - n) as usize)?;
        numbers.put(n.wrapping_mul(40_503) % MANY);
    }
    emptied(&rt, numbers);
    Ok(())
}

// For how many filters an undo of all asks that takes back 131,072 entries of 16 parts.
const GREATEST: usize = 131_072 * 16;

#[test]
fn the_greatest_reserve_is_granted(rt: HostRuntime) -> Result<(), Fail> {
    let mut numbers = three_numbers(rt.alloc())?;
    numbers.reserve(GREATEST)?;
    numbers.put(5);
    numbers.reserve(GREATEST)?;
    same(
        &rt,
        &listed(&numbers, rt.alloc(), 9)?.as_slice(),
        &[1, 4, 5, 6].as_slice(),
    );
    Ok(())
}

// How many numbers more than the address space has room for.
const ABSURD: usize = 1 << 44;

#[test]
fn absurd_room_is_refused_at_once(rt: HostRuntime) -> Result<(), Fail> {
    let mut numbers = three_numbers(rt.alloc())?;
    same(&rt, &numbers.reserve(ABSURD), &Err(AllocError));
    same(&rt, &numbers.reserve(usize::MAX), &Err(AllocError));
    numbers.reserve(1)?;
    numbers.put(5);
    same(
        &rt,
        &listed(&numbers, rt.alloc(), 9)?.as_slice(),
        &[1, 4, 5, 6].as_slice(),
    );
    Ok(())
}

// What two threads find in one set.
fn found_by_two<R: Threads + Sync>(rt: &R, numbers: &Numbers) -> (Option<u64>, Option<u64>) {
    join(rt, || numbers.first_from(0), || numbers.first_from(5))
}

// A set goes to another thread and back.
fn sent<R: Threads + Sync>(rt: &R, sets: Vec<Numbers>) -> Result<Vec<Numbers>, AllocError> {
    let take_four = |set: Numbers| -> Numbers {
        let mut set = set;
        set.take(4);
        set
    };
    thread::map_vec(rt, sets, &take_four)
}

#[test]
fn threads_share_a_set(rt: HostRuntime) -> Result<(), Fail> {
    let numbers = three_numbers(rt.alloc())?;
    same(&rt, &found_by_two(&rt, &numbers), &(Some(1), Some(6)));
    Ok(())
}

#[test]
fn a_set_goes_to_another_thread(rt: HostRuntime) -> Result<(), Fail> {
    let mut sets = Vec::new(rt.alloc());
    sets.push(three_numbers(rt.alloc())?)?;
    let sets = sent(&rt, sets)?;
    for set in &sets {
        same(&rt, &set.first_from(2), &Some(6));
    }
    Ok(())
}
