//! The runner of one port or stream gate.
//!
//! It keeps no list of acts: one operational and one pending schedule, and of the cycles only the latest start that
//! took place by the last act. From these it answers as the definitions over all acts do. A pending schedule is taken
//! over by the next act; until then reads tell by its change time whether it has come. An apply costs the length of its
//! list, and any other act or read a binary search in a list at most.
ghost use Rattle.std.specs.Prelude.{◌≡◌, ℕ, ◌+◌, ◌-◌, ◌%◌, ◌≤◌, ◌<◌, ◌^◌, min, ◌&&◌, nat_lt, is_some, if◌then◌else◌, List, [], ◌∷◌, Option, Some, None, MatchResult, IsTrue, ◌↔◌, IsOkAnd, IfOk, IfErr, IfSome, OnOk, OnErr};
ghost use Rattle.std.specs.Option.{option_copied, option_map, unwrap_or, ForSome};
ghost use Rattle.tsn_schedule.specs.Acts.{Act, Enable, Disable, Apply, with_act, is_enabled, last_instant};
ghost use Rattle.tsn_schedule.specs.Entries.{entry_at};
ghost use Rattle.tsn_schedule.specs.Kept.{Kept, fresh};
ghost use Rattle.tsn_schedule.specs.Refusing.{apply_refusal};
ghost use Rattle.tsn_schedule.specs.Running.{counted, held_by, kept_after, restart, runs_by, settled};
ghost use Rattle.tsn_schedule.specs.Stands.{StandsFor};
ghost use Rattle.tsn_schedule.specs.Counters.{change_in, enabled_change, errors_in, is_pending, greatest_count};
ghost use Rattle.tsn_schedule.specs.States.{state_in, began_in};
ghost use Rattle.tsn_schedule.specs.Times.{change_of, IsChange};
ghost use Rattle.tsn_types.specs.declared.records.Schedule.{Schedule as AnySchedule};
ghost use Rattle.tsn_types.specs.declared.refusals.Refusal.TheVariants.{Memory};

use crate::calendar::change_time;
use crate::planned::Planned;
use crate::timed::Timed;
use std::marker::Model;
use tsn_types::numbers::Instant;
use tsn_types::records::Schedule;
use tsn_types::refusals::Refusal;

/// The instant asked about comes before the last act.
#[derive(Clone, Copy, Debug, PartialEq, Eq)]
pub struct Past;

/// What gives the state at an instant: an entry, and the instant, in nanoseconds, at which its interval began.
#[derive(Clone, Copy, Debug)]
pub struct Current<'a, E> {
    pub entry: &'a E,
    pub began: u64,
}

/// A schedule that is to come in force, and when.
#[derive(Debug, Drop)]
struct Pending<E: Timed> {
    schedule: Planned<E>,
    change: u64,
}

/// The lists of one object, over time.
#[derive(Debug, Drop)]
pub struct Runner<E: Timed> {
    enabled: bool,
    // the instant of the last act
    last: u64,
    errors: u64,
    // the operational schedule by the last act, also while disabled
    held: Option<Planned<E>>,
    // its latest cycle start by then, or the first one that is to come after an enable; none where it does not run
    running: Option<u64>,
    // what the last act, an apply, set
    pending: Option<Pending<E>>,
}

impl<E: Timed> Model for Runner<E> {
    ghost use Rattle.tsn_schedule.specs.Kept.{Kept, kept_code};

    ghost Value = { Kept E };

    ghost coded = { kept_code E.code };

    ghost use Rattle.tsn_schedule.specs.Running.{IsInRange};

    ghost view = { λ a. record {
      enabled = a.enabled;
      last = a.last;
      errors = a.errors;
      held = a.held;
      running = a.running;
      pending = a.pending;
    } };

    ghost invariant = { λ a. IsInRange a.last a.running a.pending };
}

impl<E: Timed> Runner<E> {
    /// A disabled object with no list. It takes no memory.
    pub fn new() -> Self
        ensures fresh { result ≡ fresh }
        ensures stands { StandsFor result [] }
    {
        Runner {
            enabled: false,
            last: 0,
            errors: 0,
            held: None,
            running: None,
            pending: None,
        }
    }

    /// Whether the object is enabled.
    pub fn is_enabled(&self) -> bool
        ensures kept { result ≡ self.now.enabled }
        ensures acts { (acts : List (Act E)) → StandsFor self.now acts → result ≡ is_enabled acts }
    {
        let Runner { enabled, .. } = self;
        *enabled
    }

    /// When the latest start that isn't void comes or came in force, in nanoseconds; none where a disable comes after
    /// it.
    pub fn change(&self) -> Option<u64>
        ensures { (acts : List (Act E)) → StandsFor self.now acts → result ≡ change_in acts }
    {
        match &self.pending {
            None => self.running,
            Some(pending) => Some(pending.change),
        }
    }

    /// Whether that is yet to come at `now`.
    pub fn is_pending(&self, now: Instant) -> bool
        ensures { (acts : List (Act E)) → StandsFor self.now acts → result ≡ is_pending acts now }
    {
        match self.change() {
            None => false,
            Some(change) => now.get() < change,
        }
    }

    /// How many applies found their base past and a list in force, at most 2^64 - 1.
    pub fn errors(&self) -> u64
        ensures { (acts : List (Act E)) → StandsFor self.now acts → result ≡ errors_in acts }
    {
        let Runner { errors, .. } = self;
        *errors
    }

    /// Whether an instant comes before the last act.
    pub fn is_past(&self, t: Instant) -> bool
        ensures { IsTrue result ↔ (t < self.now.last) }
    {
        t.get() < self.last
    }

    // What runs at t, with its latest cycle start that took place.
    fn running_at(&self, t: u64) -> Option<(&Planned<E>, u64)>
        ensures within { IfSome result (λ p. p.1 ≤ t) }
        ensures value { option_map (λ p. (p.0.now, p.1)) result ≡ runs_by self.now t }
    {
        if let Some(pending) = &self.pending {
            if pending.change <= t {
                let start = t - (t - pending.change) % pending.schedule.cycle().get();
                return Some((&pending.schedule, start));
            }
        }
        match (&self.held, self.running) {
            (Some(held), Some(known)) => {
                if t < known {
                    return None;
                }
                // a cycle may start until the extension before the change that is to come
                let free = match &self.pending {
                    None => t,
                    Some(pending) => t.min(
                        pending.change.saturating_sub(held.extension().get() + 1),
                    ),
                };
                let back = free.saturating_sub(known) % held.cycle().get();
                let start = free - back;
                // what was decided by the last act stays
                if self.last < start {
                    Some((held, start))
                } else {
                    Some((held, known))
                }
            }
            _ => None,
        }
    }
}

impl<E: Timed + Drop> Runner<E> {
    // Takes over what has come by `now`, and drops what is pending.
    fn settle(&mut self, now: Instant)
        ensures { self.new ≡ settled self.old now }
    {
        let now = now.get();
        let running = match self.running_at(now) {
            None => None,
            Some((_, start)) => Some(start),
        };
        if let Some(pending) = self.pending.take() {
            let Pending { schedule, change } = pending;
            if change <= now {
                self.held = Some(schedule);
            }
        }
        self.running = running;
        self.last = now;
    }

    // When the schedule held starts again, enabled at `now`.
    fn restart_time(&self, now: Instant) -> Option<u64>
        ensures value { result ≡ restart now self.now.held }
        ensures small { ForSome result (λ change. IsChange change) }
    {
        match &self.held {
            None => None,
            Some(held) => Some(change_time(held.base(), held.cycle(), now)),
        }
    }

    // Starts again what is held, and tells when.
    fn start_again(&mut self, now: Instant) -> Option<u64>
        ensures kept { self.new ≡ kept_after (Enable now) self.old }
        ensures change { result ≡ restart now (held_by self.old now) }
    {
        self.settle(now);
        self.running = self.restart_time(now);
        self.enabled = true;
        self.running
    }

    /// Enables the object, at an instant not before its last act. The change time in nanoseconds, where this starts a
    /// list again; none where it was enabled already.
    pub fn enable(&mut self, now: Instant) -> Option<u64>
        requires last { self.old.last ≤ now }
        ensures last { self.new.last ≤ now }
        ensures stands { (acts : List (Act E)) → StandsFor self.old acts → StandsFor self.new (with_act (Enable now) acts) }
        ensures change { (acts : List (Act E)) → StandsFor self.old acts → result ≡ enabled_change now acts }
    {
        if self.is_enabled() {
            return None;
        }
        self.start_again(now)
    }

    // Drops what is pending, and ends what runs.
    fn stop(&mut self, now: Instant)
        ensures { self.new ≡ kept_after (Disable now) self.old }
    {
        self.settle(now);
        self.running = None;
        self.enabled = false;
    }

    /// Disables the object, at an instant not before its last act: a pending schedule is dropped, and the operational
    /// one kept.
    pub fn disable(&mut self, now: Instant)
        requires last { self.old.last ≤ now }
        ensures last { self.new.last ≤ now }
        ensures stands { (acts : List (Act E)) → StandsFor self.old acts → StandsFor self.new (with_act (Disable now) acts) }
    {
        if self.is_enabled() {
            self.stop(now);
        }
    }

    // The count of errors after an apply of this base.
    fn errors_after(&self, base: Instant, now: Instant) -> u64
        ensures { result ≡ counted self.now base now }
    {
        if base.get() < now.get() && self.running_at(now.get()).is_some() {
            self.errors.saturating_add(1)
        } else {
            self.errors
        }
    }

    // Makes a schedule pending, and tells when it comes.
    fn put(&mut self, schedule: Planned<E>, now: Instant) -> u64
        ensures kept { self.new ≡ kept_after (Apply schedule now) self.old }
        ensures change { result ≡ change_of schedule.base schedule.cycle now }
        ensures some_cycle { 1 ≤ schedule.cycle }
    {
        let change = change_time(schedule.base(), schedule.cycle(), now);
        let errors = self.errors_after(schedule.base(), now);
        self.settle(now);
        self.errors = errors;
        self.pending = Some(Pending { schedule, change });
        change
    }

    /// Makes a copy of the schedule pending, at an instant not before the last act, and gives its change time in
    /// nanoseconds. An earlier pending schedule that has not come is dropped. Refused 14 while disabled, then 15 for an
    /// empty list, then 18 for want of memory; the runner then stays as it was.
    pub fn apply(&mut self, schedule: &Schedule<E>, now: Instant) -> Result<u64, Refusal>
    where
        E: Clone,
        requires clones { (x y : E) → E.is_clone x y → y ≡ x }
        requires last { self.old.last ≤ now }
        ensures last { self.new.last ≤ now }
        ensures change { IfOk result (λ change. change ≡ change_of schedule.now.base schedule.now.cycle now) }
        ensures stands { OnOk result ((acts : List (Act E)) → StandsFor self.old acts
            → StandsFor self.new (with_act (Apply schedule.now now) acts)) }
        ensures err { OnErr result (self.new ≡ self.old) }
        ensures cause { (acts : List (Act E)) → StandsFor self.old acts →
            MatchResult result
            (λ _. apply_refusal (is_enabled acts) schedule.now.list ≡ None)
            (λ why. why ≡ unwrap_or (apply_refusal (is_enabled acts) schedule.now.list) Memory) }
    {
        if !self.is_enabled() {
            return Err(Refusal::NotEnabled);
        }
        if schedule.list.is_empty() {
            return Err(Refusal::EmptyList);
        }
        let Ok(copy) = Planned::copy_of(schedule) else {
            return Err(Refusal::Memory);
        };
        Ok(self.put(copy, now))
    }
}

impl<E: Timed> Runner<E> {
    /// The entry that gives the state at `t`, and when its interval began; none where the admin states stand. Past
    /// before the last act.
    pub fn current_at(&self, t: Instant) -> Result<Option<Current<'_, E>>, Past>
        ensures { (acts : List (Act E)) → StandsFor self.now acts →
            MatchResult result
            (λ current. (last_instant acts ≤ t) × (option_map (λ c. c.entry.now) current ≡ state_in E.interval acts t)
            × (option_map (λ c. c.began) current ≡ began_in E.interval acts t))
            (λ _. t < last_instant acts) }
    {
        if self.is_past(t) {
            return Err(Past);
        }
        let t = t.get();
        let Some((planned, start)) = self.running_at(t) else {
            return Ok(None);
        };
        match planned.at(t - start) {
            None => Ok(None),
            Some(found) => Ok(Some(Current {
                entry: found.entry,
                began: start + found.earlier,
            })),
        }
    }

    /// The entry that gives the state at `t`; none where the admin states stand. Past before the last act.
    pub fn states_at(&self, t: Instant) -> Result<Option<&E>, Past>
        ensures restored { (schedule : AnySchedule E) (a : ℕ) (acts : List (Act E)) → StandsFor self.now (Apply schedule a ∷ acts) →
            schedule.base ≤ a → change_of schedule.base schedule.cycle a ≤ t →
            IsOkAnd result (λ entry. option_copied entry ≡ entry_at E.interval schedule.list ((t - schedule.base) % schedule.cycle)) }
        ensures state { (acts : List (Act E)) → StandsFor self.now acts →
            MatchResult result
            (λ entry. (last_instant acts ≤ t) × (option_copied entry ≡ state_in E.interval acts t))
            (λ _. t < last_instant acts) }
    {
        match self.current_at(t)? {
            None => Ok(None),
            Some(current) => Ok(Some(current.entry)),
        }
    }

    /// The instant, in nanoseconds, at which the interval at `t` began; none where nothing is in force. Past before the
    /// last act.
    pub fn begin_at(&self, t: Instant) -> Result<Option<u64>, Past>
        ensures { (acts : List (Act E)) → StandsFor self.now acts →
            MatchResult result
            (λ begin. (last_instant acts ≤ t) × (begin ≡ began_in E.interval acts t))
            (λ _. t < last_instant acts) }
    {
        match self.current_at(t)? {
            None => Ok(None),
            Some(current) => Ok(Some(current.began)),
        }
    }
}
