//! What threads find at one desk: each call at its own place, none lost and none twice, also where far more threads
//! wait than there are processors.
ghost use Rattle.std.specs.Prelude.{◌≡◌, ◌≤◌, ◌<◌, All, IfOk, vec_len};
ghost use Rattle.tsn_desk.specs.Desks.{IsSeatOf, seats_of};

use crate::comparing::same;
use crate::desk::tally::Tally;
use std::alloc::{AllocError, Global};
use std::process::Abort;
use std::sync::Wait;
use std::test::Fail;
use std::thread;
use std::thread::Threads;
use tsn_desk::desk::{Desk, Seat, Standing};
use tsn_desk::machine::Nobody;

/// Adds 1 so many times, at the door or from inside, behind a door that it has locked. Each reply is the place of its
/// call, since all calls add 1.
fn count_from<R: Wait + Abort>(
    rt: &R,
    desk: &Desk<Tally>,
    standing: Standing,
    seat: Seat<Tally>,
    times: u64,
) -> Seat<Tally>
    requires { IsSeatOf desk.now seat }
    ensures { IsSeatOf desk.now result }
{
    let mut seat = seat;
    for _ in 0..times {
        let (back, turned) = desk.turn_from(rt, standing, seat, 1, &mut Nobody);
        seat = back;
        match turned {
            Ok((turn, ())) => same(rt, &turn.reply, &turn.place),
            Err(_) => same(rt, &false, &true),
        }
    }
    seat
}

/// Adds 1 four times behind a locked door and once at the door.
fn count_lot<R: Wait + Abort>(rt: &R, desk: &Desk<Tally>, seat: Seat<Tally>) -> Seat<Tally>
    requires { IsSeatOf desk.now seat }
    ensures { IsSeatOf desk.now result }
{
    desk.lock_door(rt);
    let inside = count_from(rt, desk, Standing::Inside, seat, 4);
    desk.open_door();
    count_from(rt, desk, Standing::AtTheDoor, inside, 1)
}

/// Lets each seat count in a thread of its own, in lots or one by one.
fn count_together<R: Threads + Wait + Abort + Sync>(
    rt: &R,
    desk: &Desk<Tally>,
    seats: Vec<Seat<Tally>>,
    times: u64,
    in_lots: bool,
) -> Result<Vec<Seat<Tally>>, AllocError>
    requires { All (λ seat. IsSeatOf desk.now seat) seats.items }
    ensures len { IfOk result (λ back. vec_len back ≡ vec_len seats) }
    ensures own { IfOk result (λ back. All (λ seat. IsSeatOf desk.now seat) back.items) }
{
    let count = |seat: Seat<Tally>| -> Seat<Tally>
        requires { IsSeatOf desk.now seat }
        ensures { IsSeatOf desk.entry.now result }
    {
        let mut seat = seat;
        for _ in 0..times {
            seat = if in_lots {
                count_lot(rt, desk, seat)
            } else {
                count_from(rt, desk, Standing::AtTheDoor, seat, 1)
            };
        }
        seat
    };
    thread::map_vec(rt, seats, &count)
}

/// The count of a new desk, after so many threads have made so many turns each, or lots.
fn count_of<R: Threads + Wait + Abort + Sync>(
    rt: &R,
    alloc: Global,
    seats: usize,
    times: u64,
    in_lots: bool,
) -> Result<u64, AllocError>
    requires { (0 < seats) × (seats ≤ 1024) }
{
    let Ok((desk, seats)) = Desk::new(alloc, Tally { count: 0 }, seats) else {
        return Err(AllocError);
    };
    let seats = count_together(rt, &desk, seats, times, in_lots)?;
    Ok(desk.close(seats).count)
}

/// What two seats learn of each other's calls, and the machine that they leave.
#[tactic(auto, using(tsn_samples::proofs::Rows::all_popped, tsn_samples::proofs::Rows::all_pushed))]
fn meet_and_close<R: Wait + Abort>(rt: &R, alloc: Global) -> Result<(), Fail> {
    let Ok((desk, mut seats)) = Desk::new(alloc, Tally { count: 0 }, 2) else {
        return Err(Fail::from("out of memory"));
    };
    let other = seats.pop().unwrap();
    let one = seats.pop().unwrap();
    let (one, front) = desk.front(one);
    same(rt, &front, &0);
    let one = count_from(rt, &desk, Standing::AtTheDoor, one, 3);
    let (other, front) = desk.front(other);
    same(rt, &front, &3);
    let other = count_from(rt, &desk, Standing::AtTheDoor, other, 1);
    let (one, other, met) = desk.meet(one, other);
    same(rt, &met, &Ok(()));
    seats.push(one)?;
    seats.push(other)?;
    same(rt, &desk.close(seats).count, &4);
    Ok(())
}

#[test]
fn seats_meet_and_the_desk_is_closed(rt: HostRuntime) -> Result<(), Fail> {
    meet_and_close(&rt, rt.alloc())
}

#[test]
fn two_threads_count(rt: HostRuntime) -> Result<(), Fail> {
    same(&rt, &count_of(&rt, rt.alloc(), 2, 100, false)?, &200);
    Ok(())
}

#[test]
fn sixteen_threads_count(rt: HostRuntime) -> Result<(), Fail> {
    same(&rt, &count_of(&rt, rt.alloc(), 16, 2_000, false)?, &32_000);
    Ok(())
}

#[test]
fn sixteen_threads_count_in_lots(rt: HostRuntime) -> Result<(), Fail> {
    same(&rt, &count_of(&rt, rt.alloc(), 16, 400, true)?, &32_000);
    Ok(())
}
