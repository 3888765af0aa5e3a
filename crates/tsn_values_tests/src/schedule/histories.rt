//! Random histories of acts. Each read of a runner is compared with a plain evaluation of the rules in words, which
//! walks all the acts and then all the cycle starts.
ghost use Rattle.std.specs.Prelude.{◌<◌, ◌≤◌};

use crate::comparing::same;
use std::alloc::{AllocError, Global};
use std::process::Abort;
use std::test::Fail;
use tsn_schedule::runner::Runner;
use tsn_types::lists::ControlList;
use tsn_types::numbers::{Cycle, Extension, Instant, Interval};
use tsn_types::records::{PortEntry, Schedule};
use tsn_types::refusals::Refusal;

/// Numbers that look random, the same ones in each run.
#[derive(Drop)]
struct Dice {
    state: u64,
}

impl Dice {
    /// A number below a bound.
    fn below(&mut self, bound: u64) -> u64
        requires { 0 < bound }
        ensures { result < bound }
    {
        self.state = self
            .state
            .wrapping_mul(6_364_136_223_846_793_005)
            .wrapping_add(1_442_695_040_888_963_407);
        (self.state >> 33) % bound
    }
}

/// The numbers of a schedule. The gates of an entry are its place in the list.
#[derive(Drop)]
struct Plan {
    intervals: Vec<u64>,
    cycle: u64,
    extension: u64,
    base: u64,
}

#[derive(Clone, Copy)]
enum What<'a> {
    Enable,
    Disable,
    Apply(&'a Plan),
}

#[derive(Clone, Copy)]
struct Act<'a> {
    what: What<'a>,
    at: u64,
}

/// A start: its values, the place of its act, and its change time.
#[derive(Clone, Copy)]
struct Start<'a> {
    plan: &'a Plan,
    act: usize,
    change: u64,
}

/// The base, or the first base and whole cycles that is not before the instant.
fn change_of(plan: &Plan, at: u64) -> u64 {
    let mut change = plan.base;
    for _ in 0..at {
        if change >= at {
            break;
        }
        change = change.saturating_add(plan.cycle);
    }
    change
}

/// Whether a later apply or disable comes before the change time.
fn is_void(acts: &[Act], start: Start) -> bool {
    acts.iter().skip(start.act.saturating_add(1)).any(|act| !matches!(act.what, What::Enable)
        && act.at < start.change)
}

/// Whether a disable comes after the start.
fn is_ended(acts: &[Act], start: Start) -> bool {
    acts.iter()
        .skip(start.act.saturating_add(1))
        .any(|act| matches!(act.what, What::Disable))
}

fn is_enabled(acts: &[Act]) -> bool {
    let mut enabled = false;
    for act in acts {
        match act.what {
            What::Enable => enabled = true,
            What::Disable => enabled = false,
            What::Apply(_) => {}
        }
    }
    enabled
}

/// The latest start that took place by an instant.
fn latest_by<'a>(acts: &[Act], starts: &[Start<'a>], t: u64) -> Option<Start<'a>> {
    let mut latest = None;
    for start in starts {
        if start.change <= t && !is_void(acts, *start) {
            latest = Some(*start);
        }
    }
    latest
}

/// All starts, in the order of their acts.
fn starts_of<'a>(alloc: Global, acts: &[Act<'a>]) -> Result<Vec<Start<'a>>, AllocError> {
    let mut starts = Vec::new(alloc);
    for (place, act) in acts.iter().enumerate() {
        let plan = match act.what {
            What::Enable => latest_by(acts, &starts, act.at).map(|start| start.plan),
            What::Disable => None,
            What::Apply(plan) => Some(plan),
        };
        if let Some(plan) = plan {
            starts.push(Start {
                plan,
                act: place,
                change: change_of(plan, act.at),
            })?;
        }
    }
    Ok(starts)
}

fn in_force<'a>(acts: &[Act], starts: &[Start<'a>], t: u64) -> Option<Start<'a>> {
    latest_by(acts, starts, t).filter(|start| !is_ended(acts, *start))
}

/// The change time of the latest start that is not void, unless a disable comes after it.
fn change_in(acts: &[Act], starts: &[Start]) -> Option<u64> {
    let mut latest = None;
    for start in starts {
        if !is_void(acts, *start) {
            latest = Some(*start);
        }
    }
    latest
        .filter(|start| !is_ended(acts, *start))
        .map(|start| start.change)
}

/// Whether the latest apply before the cycle start, coming after the start, has its change within the extension after
/// it.
fn is_held_back(acts: &[Act], start: Start, cycle_start: u64) -> bool {
    let mut change = None;
    for act in acts.iter().skip(start.act.saturating_add(1)) {
        if let What::Apply(plan) = act.what {
            if act.at < cycle_start {
                change = Some(change_of(plan, act.at));
            }
        }
    }
    change.is_some_and(|change| cycle_start < change
        && change <= cycle_start.saturating_add(start.plan.extension))
}

/// The place of the entry at an instant and where its interval began.
fn state_at(acts: &[Act], starts: &[Start], t: u64) -> Option<(u64, u64)> {
    let start = in_force(acts, starts, t)?;
    let mut latest = None;
    let mut nominal = start.change;
    for _ in 0..=t {
        if nominal > t {
            break;
        }
        if !is_held_back(acts, start, nominal) {
            latest = Some(nominal);
        }
        nominal = nominal.saturating_add(start.plan.cycle);
    }
    let mut place = 0;
    let mut begin = latest?;
    for interval in &start.plan.intervals {
        let end = begin.saturating_add(*interval);
        if t < end || place == (start.plan.intervals.len() as u64).saturating_sub(1) {
            break;
        }
        place = place.saturating_add(1);
        begin = end;
    }
    Some((place, begin))
}

/// How many applies found their base past and a list in force.
fn errors_in(alloc: Global, acts: &[Act]) -> Result<u64, AllocError> {
    let mut errors = 0u64;
    for (place, act) in acts.iter().enumerate() {
        let earlier = &acts[..place];
        if let What::Apply(plan) = act.what {
            let starts = starts_of(alloc, earlier)?;
            if plan.base < act.at && in_force(earlier, &starts, act.at).is_some() {
                errors = errors.saturating_add(1);
            }
        }
    }
    Ok(errors)
}

fn random_plan(alloc: Global, dice: &mut Dice) -> Result<Plan, AllocError> {
    let mut intervals = Vec::new(alloc);
    for _ in 0..1 + dice.below(3) {
        intervals.push(1 + dice.below(20))?;
    }
    Ok(Plan {
        intervals,
        cycle: 1 + dice.below(40),
        extension: dice.below(60),
        base: dice.below(200),
    })
}

fn schedule_of(alloc: Global, plan: &Plan) -> Result<Schedule<PortEntry>, Fail> {
    let mut list = ControlList::new(alloc);
    let mut place = 0u8;
    for interval in &plan.intervals {
        list.push(PortEntry {
            gates: place,
            interval: Interval::new(*interval)?,
        })?;
        place = place.saturating_add(1);
    }
    Ok(Schedule {
        list,
        cycle: Cycle::new(plan.cycle)?,
        extension: Extension::new(plan.extension)?,
        base: Instant::new(plan.base)?,
    })
}

/// Lets an act come, of the runner and of the list of acts with effect, and compares what it answers.
fn come<'a>(
    rt: &impl Abort,
    alloc: Global,
    runner: &mut Runner<PortEntry>,
    acts: &mut Vec<Act<'a>>,
    what: What<'a>,
    now: Instant,
) -> Result<(), Fail>
    requires { runner.old.last ≤ now }
    ensures { runner.new.last ≤ now }
{
    let act = Act {
        what,
        at: now.get(),
    };
    let was_enabled = is_enabled(acts);
    match what {
        What::Enable => {
            let answer = runner.enable(now);
            let mut change = None;
            if !was_enabled {
                acts.push(act)?;
                change = change_in(acts, &starts_of(alloc, acts)?);
            }
            same(rt, &answer, &change);
        }
        What::Disable => {
            runner.disable(now);
            if was_enabled {
                acts.push(act)?;
            }
        }
        What::Apply(plan) => match runner.apply(&schedule_of(alloc, plan)?, now) {
            Ok(change) => {
                assert!(rt; was_enabled);
                same(rt, &change, &change_of(plan, act.at));
                acts.push(act)?;
            }
            Err(Refusal::NotEnabled) => assert!(rt; !was_enabled),
            Err(_) => return Err(Fail::from("refused")),
        },
    }
    Ok(())
}

/// Compares each read at each instant from before the last act to beyond the cycles after the last change time.
fn compare(
    rt: &impl Abort,
    alloc: Global,
    runner: &Runner<PortEntry>,
    acts: &[Act],
) -> Result<(), Fail> {
    let starts = starts_of(alloc, acts)?;
    same(rt, &runner.is_enabled(), &is_enabled(acts));
    same(rt, &runner.errors(), &errors_in(alloc, acts)?);
    let change = change_in(acts, &starts);
    same(rt, &runner.change(), &change);
    let last = acts.last().map_or(0, |act| act.at);
    let mut end = last;
    for start in &starts {
        end = end.max(start.change);
    }
    for t in last.saturating_sub(2)..end.saturating_add(45) {
        let at = Instant::new(t)?;
        let want = if t < last {
            None
        } else {
            Some(state_at(acts, &starts, t))
        };
        let place = runner
            .states_at(at)
            .ok()
            .map(|entry| entry.map(|entry| u64::from(entry.gates)));
        same(rt, &place, &want.map(|want| want.map(|(place, _)| place)));
        same(
            rt,
            &runner.begin_at(at).ok(),
            &want.map(|want| want.map(|(_, begin)| begin)),
        );
        same(
            rt,
            &runner.is_pending(at),
            &change.is_some_and(|change| t < change),
        );
    }
    Ok(())
}

/// One history of at most ten acts, on three schedules.
fn play(rt: &impl Abort, alloc: Global, dice: &mut Dice) -> Result<(), Fail> {
    let plans = [
        random_plan(alloc, dice)?,
        random_plan(alloc, dice)?,
        random_plan(alloc, dice)?,
    ];
    let [first, second, third] = &plans;
    let mut runner = Runner::new();
    let mut acts = Vec::new(alloc);
    let mut now = 0;
    'acts: for _ in 0..dice.below(11) {
        now = (now + dice.below(30)).min(1000);
        let what = match dice.below(6) {
            0 | 1 => What::Enable,
            2 => What::Disable,
            3 => What::Apply(first),
            4 => What::Apply(second),
            _ => What::Apply(third),
        };
        come(
            rt,
            alloc,
            &mut runner,
            &mut acts,
            what,
            Instant::new(now).unwrap(),
        )?;
    }
    compare(rt, alloc, &runner, &acts)
}

#[test]
fn random_histories(rt: HostRuntime) -> Result<(), Fail> {
    let mut dice = Dice { state: 802 };
    for _ in 0..3000 {
        play(&rt, rt.alloc(), &mut dice)?;
    }
    Ok(())
}
