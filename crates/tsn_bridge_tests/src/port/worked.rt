//! A worker of port 1 at a desk of three seats, where a session sets another list in force meanwhile, and a mirror that
//! takes what a session did on a bridge alone. What the seats see of each other is tested in `tsn_bridge_tests`.
ghost use Rattle.std.specs.Prelude.{◌≡◌, All, IfOk, OnOk, vec_len};
ghost use Rattle.tsn_desk.specs.Desks.{IsSeatOf, first_of, seats_of, seen};
ghost use Rattle.tsn_machine.specs.History.{Begins};
ghost use Rattle.tsn_bridge.specs.Beginning.{IsOpened};
ghost use Rattle.tsn_port.specs.Workers.{IsWorkerOf, last_seen};

use crate::comparing::same;
use crate::port::tests::{ONE_TWO, instant, port, record, shows};
use std::alloc::Global;
use std::process::Abort;
use std::sync::Wait;
use std::test::Fail;
use tsn_bridge::bridge::{Bridge, Setup};
use tsn_bridge::command::{Ask, Command};
use tsn_bridge::reply::Reply;
use tsn_desk::desk::{Desk, Seat};
use tsn_desk::machine::Nobody;
use tsn_journal::entries::Entries;
use tsn_port::mirror::Mirror;
use tsn_port::worker::{PortWorker, RoundFault};
use tsn_schedule::runner::Past;
use tsn_types::keys::Key;
use tsn_types::lists::ControlList;
use tsn_types::numbers::{Cycle, Extension, GateId, PortId};
use tsn_types::records::{PortGates, Record, Schedule, StreamGate};
use tsn_types::refusals::{Field, Refusal};

fn gate_key() -> Key {
    Key::Gate(GateId::new(0).unwrap())
}

/// Creates gate 0, which is open and has an empty list.
fn create(alloc: Global) -> Command {
    let gate = StreamGate {
        is_open: true,
        ipv: None,
        invalid_rx: false,
        octets_exceeded: false,
        admin: Schedule {
            list: ControlList::new(alloc),
            cycle: Cycle::new(1_000_000).unwrap(),
            extension: Extension::new(0).unwrap(),
            base: instant(0),
        },
    };
    Command::Create {
        key: gate_key(),
        value: Record::Gate(gate),
    }
}

/// Sets the list of port 1.
fn replace(alloc: Global) -> Result<Command, Fail> {
    Ok(Command::Replace {
        key: Key::Port(port()),
        value: Record::Port(record(alloc, ONE_TWO)?),
    })
}

/// Enables port 1 at 0.
fn enable() -> Command {
    Command::Enable {
        key: Key::Port(port()),
        now: instant(0),
    }
}

/// Applies the list of port 1 at 2500, so that it is in force from 3000 on.
fn apply() -> Command {
    Command::Apply {
        key: Key::Port(port()),
        now: instant(2500),
    }
}

/// The number that a reply tells: of a session or of an entry.
fn number_in(reply: Reply) -> Option<u64> {
    match reply {
        Reply::Session { session } => Some(u64::from(session)),
        Reply::Entry { entry } => Some(entry),
        Reply::Acted { entry, .. } => Some(entry),
        _ => None,
    }
}

/// One turn of session 1, which is told this number.
fn turn<R: Wait + Abort>(
    rt: &R,
    desk: &Desk<Bridge>,
    seat: Seat<Bridge>,
    command: Command,
    number: u64,
) -> Seat<Bridge>
    requires { IsSeatOf desk.now seat }
    ensures { IsSeatOf desk.now result }
{
    let (seat, turned) = desk.turn(
        rt,
        seat,
        Ask {
            session: 1,
            command,
        },
    );
    let told = match turned {
        Ok(turn) => number_in(turn.reply),
        Err(_) => None,
    };
    same(rt, &told, &Some(number));
    seat
}

/// Two seats get the sessions 1 and 2, and the first creates a gate.
fn begin<R: Wait + Abort>(
    rt: &R,
    alloc: Global,
    desk: &Desk<Bridge>,
    first: Seat<Bridge>,
    second: Seat<Bridge>,
) -> (Seat<Bridge>, Seat<Bridge>)
    requires { IsSeatOf desk.now first × IsSeatOf desk.now second }
    ensures { IsSeatOf desk.now result.0 × IsSeatOf desk.now result.1 }
{
    let first = turn(rt, desk, first, Command::Hello { name: None }, 1);
    let second = turn(rt, desk, second, Command::Hello { name: None }, 2);
    let first = turn(rt, desk, first, create(alloc), 1);
    (first, second)
}

/// A worker of a port over the limits does not start.
fn refuse<R: Wait + Abort>(rt: &R, desk: &Desk<Bridge>, seat: Seat<Bridge>) -> Seat<Bridge>
    requires { IsSeatOf desk.now seat × IsOpened (first_of desk.now) }
    ensures { IsSeatOf desk.now result }
{
    let (seat, fault) = match PortWorker::start(
        rt,
        desk,
        seat,
        PortId::new(3).unwrap(),
        None,
        &mut Nobody,
    ) {
        Ok((seat, _worker)) => (seat, None),
        Err((seat, fault)) => (seat, Some(fault)),
    };
    let wanted = Some(RoundFault::Refused(Refusal::Range(Field::Key)));
    same(rt, &fault, &wanted);
    seat
}

/// A round at 3300 shows these gates.
fn round<R: Wait + Abort>(
    rt: &R,
    desk: &Desk<Bridge>,
    seat: Seat<Bridge>,
    worker: &mut PortWorker,
    gates: u8,
) -> Seat<Bridge>
    requires { IsSeatOf desk.now seat × IsWorkerOf desk.now worker.old × Begins (last_seen worker.old) (seen seat) }
    ensures { IsSeatOf desk.now result × IsWorkerOf desk.now worker.new × Begins (last_seen worker.new) (seen result) }
{
    let (seat, told) = worker.round(rt, desk, seat, instant(3300));
    same(rt, &told, &Ok(gates));
    seat
}

/// Session 1 sets another list in force.
fn change_over<R: Wait + Abort>(
    rt: &R,
    desk: &Desk<Bridge>,
    seat: Seat<Bridge>,
    replace: Command,
) -> Seat<Bridge>
    requires { IsSeatOf desk.now seat }
    ensures { IsSeatOf desk.now result }
{
    let seat = turn(rt, desk, seat, replace, 2);
    let seat = turn(rt, desk, seat, enable(), 3);
    turn(rt, desk, seat, apply(), 4)
}

/// A worker of port 1, with the seat for its rounds.
#[tactic(auto, using(crate::proofs::Beginning::begins_alike))]
fn start<R: Wait>(
    rt: &R,
    desk: &Desk<Bridge>,
    seat: Seat<Bridge>,
) -> Result<(Seat<Bridge>, PortWorker), Fail>
    requires { IsSeatOf desk.now seat × IsOpened (first_of desk.now) }
    ensures { IfOk result (λ r. IsSeatOf desk.now r.0 × IsWorkerOf desk.now r.1 × Begins (last_seen r.1) (seen r.0)) }
{
    match PortWorker::start(rt, desk, seat, port(), None, &mut Nobody) {
        Ok(started) => Ok(started),
        Err((_seat, fault)) => Err(Fail::from(fault)),
    }
}

/// A worker of port 1 follows by the third seat what the first one does.
fn follow<R: Wait + Abort>(
    rt: &R,
    desk: &Desk<Bridge>,
    first: Seat<Bridge>,
    third: Seat<Bridge>,
    replace: Command,
) -> Result<(Seat<Bridge>, Seat<Bridge>), Fail>
    requires { IsSeatOf desk.now first × IsSeatOf desk.now third × IsOpened (first_of desk.now) }
    ensures { IfOk result (λ r. IsSeatOf desk.now r.0 × IsSeatOf desk.now r.1) }
{
    let (third, mut worker) = start(rt, desk, third)?;
    let third = round(rt, desk, third, &mut worker, 255);
    let first = change_over(rt, desk, first, replace);
    let third = round(rt, desk, third, &mut worker, 128);
    Ok((first, third))
}

/// A desk of three seats over a new bridge.
fn opened(alloc: Global) -> Result<(Desk<Bridge>, Vec<Seat<Bridge>>), Fail>
    ensures own { IfOk result (λ r. All (λ seat. IsSeatOf r.0 seat) r.1.items) }
    ensures opened { IfOk result (λ r. IsOpened (first_of r.0)) }
    ensures all { IfOk result (λ r. (vec_len r.1 ≡ 3) × (seats_of r.0 ≡ 3)) }
{
    let bridge = Bridge::new(alloc, Setup::standard(alloc))?;
    match Desk::new(alloc, bridge, 3) {
        Ok(opened) => Ok(opened),
        Err(_) => Err(Fail::from("out of memory")),
    }
}

/// Two sessions edit, and a worker follows them.
#[tactic(auto, using(tsn_samples::proofs::Rows::all_popped, tsn_samples::proofs::Rows::all_pushed))]
fn play<R: Wait + Abort>(
    rt: &R,
    alloc: Global,
    desk: &Desk<Bridge>,
    row: &mut Vec<Seat<Bridge>>,
) -> Result<(), Fail>
    requires row { All (λ seat. IsSeatOf desk.now seat) row.old.items × (vec_len row.old ≡ 3) }
    requires opened { IsOpened (first_of desk.now) }
    ensures row { OnOk result (All (λ seat. IsSeatOf desk.now seat) row.new.items × (vec_len row.new ≡ 3)) }
{
    let replace = replace(alloc)?;
    let third = row.pop().unwrap();
    let second = row.pop().unwrap();
    let first = row.pop().unwrap();
    let (first, second) = begin(rt, alloc, desk, first, second);
    let third = refuse(rt, desk, third);
    let (first, third) = follow(rt, desk, first, third, replace)?;
    row.push(first)?;
    row.push(second)?;
    row.push(third)?;
    Ok(())
}

/// The bridge that the desk gives back.
fn followed<R: Wait + Abort>(rt: &R, alloc: Global) -> Result<Bridge, Fail> {
    let (desk, mut row) = opened(alloc)?;
    play(rt, alloc, &desk, &mut row)?;
    Ok(desk.close(row))
}

#[test]
fn a_worker_follows_a_session(rt: HostRuntime) -> Result<(), Fail> {
    let bridge = followed(&rt, rt.alloc())?;
    same(&rt, &bridge.config().get(gate_key()).is_some(), &true);
    same(&rt, &bridge.journal().len(), &4);
    Ok(())
}

/// The record that port 1 has.
fn present(bridge: &mut Bridge) -> Option<PortGates> {
    let key = Key::Port(port());
    match bridge.step(1, Command::Show { key }) {
        Reply::Shown {
            key: _,
            value: Record::Port(value),
        } => Some(value),
        _ => None,
    }
}

/// Sets another list in force, and gives what the journal has then.
fn change_alone(bridge: &mut Bridge, replace: Command) -> Result<Entries, Fail> {
    let _ = bridge.step(1, replace);
    let _ = bridge.step(1, enable());
    let _ = bridge.step(1, apply());
    Ok(bridge.journal().since(0)?)
}

/// A mirror of port 1 from the beginning, which took all that was done.
fn mirrored(alloc: Global) -> Result<Mirror, Fail> {
    let replace = replace(alloc)?;
    let mut bridge = Bridge::new(alloc, Setup::standard(alloc))?;
    let _ = bridge.step(1, Command::Hello { name: None });
    let Some(first) = present(&mut bridge) else {
        return Err(Fail::from("no record"));
    };
    let mut mirror = Mirror::new(port(), first);
    mirror.take(&change_alone(&mut bridge, replace)?)?;
    Ok(mirror)
}

#[test]
fn a_mirror_follows_a_bridge(rt: HostRuntime) -> Result<(), Fail> {
    let mirror = mirrored(rt.alloc())?;
    same(&rt, &mirror.front(), &3);
    shows(&rt, &mirror, 3300, Ok(128));
    shows(&rt, &mirror, 2499, Err(Past));
    Ok(())
}
