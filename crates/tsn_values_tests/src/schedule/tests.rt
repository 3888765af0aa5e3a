//! Worked examples as calls of the runner, the entry at an offset, and the largest list. What holds at the edges of
//! lists is seen through the program too (`examples/tables/lists-edges.txt`).
ghost use Rattle.std.specs.Prelude.{◌≡◌, ◌<◌, ◌≤◌, ◌^◌, IfOk};

use crate::comparing::same;
use std::alloc::Global;
use std::process::Abort;
use std::test::Fail;
use tsn_schedule::runner::{Past, Runner};
use tsn_types::lists::ControlList;
use tsn_types::numbers::{Cycle, Extension, Instant, Interval};
use tsn_types::records::{PortEntry, Schedule};

fn instant(number: u64) -> Instant
    requires { number ≤ 2 ^ 62 }
    ensures { result ≡ number }
{
    Instant::new(number).unwrap()
}

/// A schedule of a port: gates and intervals, its cycle, extension and base.
fn plan(
    alloc: Global,
    rows: &[(u8, u64)],
    cycle: u64,
    extension: u64,
    base: u64,
) -> Result<Schedule<PortEntry>, Fail>
    requires cycle { (1 ≤ cycle) × (cycle ≤ 10 ^ 12) }
    requires extension { extension ≤ 10 ^ 12 }
    requires base { base ≤ 2 ^ 62 }
{
    let mut list = ControlList::new(alloc);
    for (gates, interval) in rows {
        list.push(PortEntry {
            gates: *gates,
            interval: Interval::new(*interval)?,
        })?;
    }
    Ok(Schedule {
        list,
        cycle: Cycle::new(cycle).unwrap(),
        extension: Extension::new(extension).unwrap(),
        base: instant(base),
    })
}

// Lists of the examples.
const ONE_TWO: &'static [(u8, u64)] = &[(1, 300), (128, 700)];

const OPEN_SHUT: &'static [(u8, u64)] = &[(255, 500), (0, 500)];

/// An apply is accepted, with this change time.
fn applies(
    rt: &impl Abort,
    runner: &mut Runner<PortEntry>,
    schedule: &Schedule<PortEntry>,
    now: Instant,
    change: u64,
)
    requires last { runner.old.last ≤ now }
    ensures last { runner.new.last ≤ now }
{
    let found = runner.apply(schedule, now);
    assert!(rt; matches!(found, Ok(at) if at == change));
}

/// The gates at an instant; none where the admin states stand.
fn gates_at(runner: &Runner<PortEntry>, t: u64) -> Result<Option<u8>, Past>
    requires { t ≤ 2 ^ 62 }
{
    let entry = runner.states_at(instant(t))?;
    Ok(entry.map(|entry| entry.gates))
}

/// The port's gates at an instant are these, none where no list is in force.
fn shows(rt: &impl Abort, runner: &Runner<PortEntry>, t: u64, wanted: Result<Option<u8>, Past>)
    requires { t ≤ 2 ^ 62 }
{
    same(rt, &gates_at(runner, t), &wanted);
}

/// An enabled runner to which 1 for 300 and then 128 for 700 nanoseconds was applied at 2500.
fn ahead(rt: &impl Abort, alloc: Global, extension: u64) -> Result<Runner<PortEntry>, Fail>
    requires { extension ≤ 10 ^ 12 }
    ensures { IfOk result (λ runner. runner.last ≤ 2500) }
{
    let first = plan(alloc, ONE_TWO, 1000, extension, 0)?;
    let mut runner = Runner::new();
    same(rt, &runner.enable(instant(0)), &None);
    applies(rt, &mut runner, &first, instant(2500), 3000);
    Ok(runner)
}

/// The first list is applied again after the other one, with errors counted for its base.
fn is_restored(
    rt: &impl Abort,
    runner: &mut Runner<PortEntry>,
    other: &Schedule<PortEntry>,
    first: &Schedule<PortEntry>,
)
    requires { runner.old.last ≤ 2500 }
    ensures { runner.new.last ≤ 9001 }
{
    applies(rt, runner, other, instant(5000), 5000);
    applies(rt, runner, first, instant(9001), 10000);
    shows(rt, runner, 9999, Ok(Some(0)));
    shows(rt, runner, 10000, Ok(Some(1)));
    shows(rt, runner, 10299, Ok(Some(1)));
    shows(rt, runner, 10300, Ok(Some(128)));
    same(rt, &runner.errors(), &2);
    same(rt, &runner.change(), &Some(10000));
    assert!(rt; runner.is_enabled());
    assert!(rt; runner.is_pending(instant(9001)));
}

/// A base at the instant of the apply is no error, and no change is pending at its own time.
fn has_no_error(rt: &impl Abort, runner: &mut Runner<PortEntry>, later: &Schedule<PortEntry>)
    requires { runner.old.last ≤ 9001 }
{
    applies(rt, runner, later, instant(12000), 12000);
    same(rt, &runner.errors(), &2);
    same(rt, &runner.change(), &Some(12000));
    assert!(rt; !runner.is_pending(instant(12000)));
}

#[test]
fn restored_list(rt: HostRuntime) -> Result<(), Fail> {
    let other = plan(rt.alloc(), OPEN_SHUT, 1000, 0, 0)?;
    let first = plan(rt.alloc(), ONE_TWO, 1000, 0, 0)?;
    let mut runner = ahead(&rt, rt.alloc(), 0)?;
    is_restored(&rt, &mut runner, &other, &first);
    let later = plan(rt.alloc(), ONE_TWO, 1000, 0, 12000)?;
    has_no_error(&rt, &mut runner, &later);
    Ok(())
}

/// A port's schedule of the most entries: gates 1, and 128 in the last one.
fn largest_plan(alloc: Global) -> Result<Schedule<PortEntry>, Fail> {
    let mut list = ControlList::new(alloc);
    for place in 0..1024u32 {
        list.push(PortEntry {
            gates: if place < 1023 { 1 } else { 128 },
            interval: Interval::new(2).unwrap(),
        })?;
    }
    Ok(Schedule {
        list,
        cycle: Cycle::new(2048).unwrap(),
        extension: Extension::new(0).unwrap(),
        base: instant(0),
    })
}

/// The largest list is copied, and its last entry is reached.
#[test]
fn largest_list(rt: HostRuntime) -> Result<(), Fail> {
    let schedule = largest_plan(rt.alloc())?;
    let mut runner = Runner::new();
    same(&rt, &runner.enable(instant(0)), &None);
    applies(&rt, &mut runner, &schedule, instant(1), 2048);
    drop(schedule);
    shows(&rt, &runner, 2048 + 2045, Ok(Some(1)));
    shows(&rt, &runner, 2048 + 2046, Ok(Some(128)));
    same(
        &rt,
        &runner.begin_at(instant(2048 + 2047)),
        &Ok(Some(2048 + 2046)),
    );
    Ok(())
}
