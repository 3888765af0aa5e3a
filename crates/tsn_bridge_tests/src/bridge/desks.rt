//! Sessions that share one bridge at a desk, each with a seat: in threads of their own, and one after the other.
ghost use Rattle.std.specs.Prelude.{◌≡◌, All, IfOk, vec_len};
ghost use Rattle.tsn_desk.specs.Desks.{IsSeatOf};

use crate::comparing::same;
use std::alloc::{AllocError, Global};
use std::process::Abort;
use std::sync::Wait;
use std::test::Fail;
use std::thread;
use std::thread::Threads;
use tsn_bridge::bridge::{Bridge, Setup};
use tsn_bridge::command::{Ask, Command};
use tsn_bridge::reply::Reply;
use tsn_desk::desk::{Desk, Seat};
use tsn_samples::gate;
use tsn_types::keys::Key;
use tsn_types::numbers::GateId;
use tsn_types::records::{Record, StreamGate};

fn gate_key(number: u32) -> Key {
    Key::Gate(GateId::new(u64::from(number % 16)).unwrap())
}

/// The session and the place of a hello.
fn hello<R: Wait>(
    rt: &R,
    desk: &Desk<Bridge>,
    seat: Seat<Bridge>,
) -> (Seat<Bridge>, Option<(u32, u64)>)
    requires { IsSeatOf desk.now seat }
    ensures { IsSeatOf desk.now result.0 }
{
    let ask = Ask {
        session: 0,
        command: Command::Hello { name: None },
    };
    let (seat, turned) = desk.turn(rt, seat, ask);
    let Ok(turn) = turned else {
        return (seat, None);
    };
    match turn.reply {
        Reply::Session { session } => (seat, Some((session, turn.place))),
        _ => (seat, None),
    }
}

/// The entry that a command makes, with the place of the turn.
fn enter<R: Wait>(
    rt: &R,
    desk: &Desk<Bridge>,
    seat: Seat<Bridge>,
    session: u32,
    command: Command,
) -> (Seat<Bridge>, Option<(u64, u64)>)
    requires { IsSeatOf desk.now seat }
    ensures { IsSeatOf desk.now result.0 }
{
    let (seat, turned) = desk.turn(rt, seat, Ask { session, command });
    let Ok(turn) = turned else {
        return (seat, None);
    };
    match turn.reply {
        Reply::Entry { entry } => (seat, Some((entry, turn.place))),
        _ => (seat, None),
    }
}

/// Creates gate 1 or gate 0, a gate for each of two sessions, and removes it.
fn create_and_remove<R: Wait + Abort>(
    rt: &R,
    alloc: Global,
    desk: &Desk<Bridge>,
    seat: Seat<Bridge>,
    session: u32,
) -> Seat<Bridge>
    requires { IsSeatOf desk.now seat }
    ensures { IsSeatOf desk.now result }
{
    let create = Command::Create {
        key: gate_key(session % 2),
        value: Record::Gate(gate(alloc)),
    };
    let (seat, made) = enter(rt, desk, seat, session, create);
    same(rt, &made.is_some(), &true);
    let remove = Command::Remove {
        key: gate_key(session % 2),
    };
    let (seat, made) = enter(rt, desk, seat, session, remove);
    same(rt, &made.is_some(), &true);
    seat
}

/// A session of its own, which creates and removes a gate of its own in a hundred turns.
fn edit_alone<R: Wait + Abort>(
    rt: &R,
    alloc: Global,
    desk: &Desk<Bridge>,
    seat: Seat<Bridge>,
) -> Seat<Bridge>
    requires { IsSeatOf desk.now seat }
    ensures { IsSeatOf desk.now result }
{
    let (seat, told) = hello(rt, desk, seat);
    let Some((session, _)) = told else {
        return seat;
    };
    let mut seat = seat;
    for _ in 0..50u32 {
        let back = create_and_remove(rt, alloc, desk, seat, session);
        seat = back;
    }
    seat
}

/// Lets each seat edit in a thread of its own.
fn edit_together<R: Threads + Wait + Abort + Sync>(
    rt: &R,
    alloc: Global,
    desk: &Desk<Bridge>,
    seats: Vec<Seat<Bridge>>,
) -> Result<Vec<Seat<Bridge>>, AllocError>
    requires { All (λ seat. IsSeatOf desk.now seat) seats.items }
    ensures len { IfOk result (λ back. vec_len back ≡ vec_len seats) }
    ensures own { IfOk result (λ back. All (λ seat. IsSeatOf desk.now seat) back.items) }
{
    let edit = |seat: Seat<Bridge>| -> Seat<Bridge>
        requires { IsSeatOf desk.now seat }
        ensures { IsSeatOf desk.entry.now result }
    { edit_alone(rt, alloc, desk, seat) };
    thread::map_vec(rt, seats, &edit)
}

/// The bridge after two threads have edited it.
fn edited_by_two<R: Threads + Wait + Abort + Sync>(rt: &R, alloc: Global) -> Result<Bridge, Fail> {
    let bridge = Bridge::new(alloc, Setup::standard(alloc))?;
    let Ok((desk, seats)) = Desk::new(alloc, bridge, 2) else {
        return Err(Fail::from("out of memory"));
    };
    let seats = edit_together(rt, alloc, &desk, seats)?;
    Ok(desk.close(seats))
}

#[test]
fn two_threads_create(rt: HostRuntime) -> Result<(), Fail> {
    let bridge = edited_by_two(&rt, rt.alloc())?;
    same(&rt, &bridge.journal().len(), &200);
    Ok(())
}

/// Whether a show of the key in the next turn tells this gate, with the turn's place.
fn show<R: Wait>(
    rt: &R,
    desk: &Desk<Bridge>,
    seat: Seat<Bridge>,
    session: u32,
    key: Key,
    gate: &StreamGate,
) -> (Seat<Bridge>, Option<u64>)
    requires { IsSeatOf desk.now seat }
    ensures { IsSeatOf desk.now result.0 }
{
    let command = Command::Show { key };
    let (seat, turned) = desk.turn(rt, seat, Ask { session, command });
    let Ok(turn) = turned else {
        return (seat, None);
    };
    match &turn.reply {
        Reply::Shown {
            key: shown,
            value: Record::Gate(value),
        } if *shown == key && *value == *gate => (seat, Some(turn.place)),
        _ => (seat, None),
    }
}

/// The first seat creates a gate, the second is shown it, the third looks at the front, and the first two meet.
fn share<R: Wait + Abort>(
    rt: &R,
    alloc: Global,
    desk: &Desk<Bridge>,
    first: Seat<Bridge>,
    second: Seat<Bridge>,
    third: Seat<Bridge>,
) -> (Seat<Bridge>, Seat<Bridge>, Seat<Bridge>)
    requires { IsSeatOf desk.now first × IsSeatOf desk.now second × IsSeatOf desk.now third }
    ensures { IsSeatOf desk.now result.0 × IsSeatOf desk.now result.1 × IsSeatOf desk.now result.2 }
{
    let (first, told) = hello(rt, desk, first);
    same(rt, &told, &Some((1, 0)));
    let (second, told) = hello(rt, desk, second);
    same(rt, &told, &Some((2, 1)));
    let create = Command::Create {
        key: gate_key(0),
        value: Record::Gate(gate(alloc)),
    };
    let (first, made) = enter(rt, desk, first, 1, create);
    same(rt, &made, &Some((1, 2)));
    let (second, shown) = show(rt, desk, second, 2, gate_key(0), &gate(alloc));
    same(rt, &shown, &Some(3));
    let (third, front) = desk.front(third);
    same(rt, &front, &4);
    let (first, second, met) = desk.meet(first, second);
    same(rt, &met, &Ok(()));
    (first, second, third)
}

/// The bridge that a desk of three seats gives back.
#[tactic(auto, using(tsn_samples::proofs::Rows::all_popped, tsn_samples::proofs::Rows::all_pushed))]
fn shared_by_three<R: Wait + Abort>(rt: &R, alloc: Global) -> Result<Bridge, Fail> {
    let bridge = Bridge::new(alloc, Setup::standard(alloc))?;
    let Ok((desk, mut row)) = Desk::new(alloc, bridge, 3) else {
        return Err(Fail::from("out of memory"));
    };
    let third = row.pop().unwrap();
    let second = row.pop().unwrap();
    let first = row.pop().unwrap();
    let (first, second, third) = share(rt, alloc, &desk, first, second, third);
    row.push(first)?;
    row.push(second)?;
    row.push(third)?;
    Ok(desk.close(row))
}

#[test]
fn desk_of_three(rt: HostRuntime) -> Result<(), Fail> {
    let bridge = shared_by_three(&rt, rt.alloc())?;
    let gate = Record::Gate(gate(rt.alloc()));
    let kept = match bridge.config().get(gate_key(0)) {
        Some(record) => record.is(&gate),
        None => false,
    };
    same(&rt, &kept, &true);
    same(&rt, &bridge.journal().len(), &1);
    Ok(())
}
