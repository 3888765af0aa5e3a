//! The mirror of a port, which follows the journal entry by entry.
ghost use Rattle.std.specs.Prelude.{◌≡◌, ◌+◌, ◌-◌, ◌≤◌, ◌<◌, ◌++◌, List, [], length, take, IfOk, OnErr, OnOk, MatchResult};
ghost use Rattle.std.specs.Option.{option_copied};
ghost use Rattle.tsn_types.specs.declared.keys.Key.TheVariants as keys;
ghost use Rattle.tsn_types.specs.declared.records.PortEntry.{PortEntry as AnyPortEntry};
ghost use Rattle.tsn_types.specs.declared.records.PortGates.{PortGates as AnyPortGates};
ghost use Rattle.tsn_schedule.specs.Acts.{IsHistory, last_instant};
ghost use Rattle.tsn_schedule.specs.Kept.{fresh};
ghost use Rattle.tsn_entries.specs.declared.entries.Entry.{Entry as AnyEntry};
ghost use Rattle.tsn_bridge.specs.Objects.{Object, after_entry, after_part, port_schedule};
ghost use Rattle.tsn_port.specs.Mirrors.{AreOfPort, IsOfPort, Mirrors, Shows, ShowsGates, acted, first_record, mirrored, port_part, record_before};

use std::alloc::AllocError;
use std::marker::Model;
use tsn_edit::{Part, find_part};
use tsn_journal::entries::{Act, Entries, Entry, What};
use tsn_schedule::runner::{Past, Runner};
use tsn_types::keys::Key;
use tsn_types::numbers::{Instant, PortId};
use tsn_types::records::{PortEntry, PortGates, Record};
use tsn_types::refusals::Refusal;

/// What the entries so far make of one port. Contracts see its number, its record, what its runner keeps, and how many
/// entries are in.
#[derive(Debug, Drop)]
pub struct Mirror {
    port: PortId,
    value: PortGates,
    runner: Runner<PortEntry>,
    front: u64,
}

impl Model for Mirror {
    ghost use Rattle.tsn_port.specs.Mirrors.{MirrorState, mirror_code};

    ghost Value = { MirrorState };

    ghost coded = { mirror_code };

    ghost view = { λ a. record { port = a.port; value = a.value; runner = a.runner; front = a.front } };
}

impl Mirror {
    /// The mirror of a port whose record the journal began with, with no entry in. It takes no memory.
    pub fn new(port: PortId, value: PortGates) -> Mirror
        ensures port { result.port ≡ port }
        ensures front { result.front ≡ 0 }
        ensures mirrors { Mirrors result value [] }
    {
        Mirror {
            port,
            value,
            runner: Runner::new(),
            front: 0,
        }
    }

    /// The mirror of a port of which the record and then all entries were looked up: with all of them in. Where no
    /// entry changed the port, the record that was shown is the one with which the journal began. Refused only for want
    /// of memory.
    pub fn of(port: PortId, shown: &PortGates, entries: &Entries) -> Result<Mirror, AllocError>
        ensures port { IfOk result (λ mirror. mirror.port ≡ port) }
        ensures front { IfOk result (λ mirror. mirror.front ≡ length entries.now) }
        ensures mirrors { IfOk result (λ mirror. AreOfPort port (mirrored port (first_record port entries.now shown.now) []) entries.now
            → Mirrors mirror (first_record port entries.now shown.now) entries.now) }
    {
        let first = first_record(port, entries.as_slice(), shown).try_clone()?;
        let mut mirror = Mirror::new(port, first);
        mirror.take(entries)?;
        Ok(mirror)
    }

    /// The port.
    pub fn port(&self) -> PortId
        ensures { result ≡ self.now.port }
    {
        let Mirror { port, .. } = self;
        *port
    }

    /// How many entries are in.
    pub fn front(&self) -> u64
        ensures { result ≡ self.now.front }
    {
        let Mirror { front, .. } = self;
        *front
    }

    /// Takes in the entries that come next. Refused only for want of memory; `front` then tells how many of them are
    /// in. What is in is told where the entries are such as a bridge makes: after each of them the port is there, and
    /// its acts are in order of time, each with effect.
    pub fn take(&mut self, entries: &Entries) -> Result<(), AllocError>
        ensures port { self.new.port ≡ self.old.port }
        ensures front { (self.old.front ≤ self.new.front) × (self.new.front ≤ self.old.front + length entries.now) }
        ensures all { OnOk result (self.new.front ≡ self.old.front + length entries.now) }
        ensures taken { (opening : AnyPortGates) (before : List AnyEntry) → Mirrors self.old opening before →
            AreOfPort self.old.port (mirrored self.old.port opening before) entries.now →
            Mirrors self.new opening (before ++ take (self.new.front - self.old.front) entries.now) }
    {
        let all = entries.as_slice();
        'each: for entry in all {
            match self.take_one(entry) {
                Ok(()) => {}
                Err(wanting) => return Err(wanting),
            }
        }
        Ok(())
    }

    /// The gates at an instant: those of the list's entry in force (802.1Q-2018, 8.6.9), or of the record. Past where
    /// the instant comes before the last act on the port. It takes no memory.
    pub fn states_at(&self, t: Instant) -> Result<u8, Past>
        ensures { (opening : AnyPortGates) (entries : List AnyEntry) → Mirrors self.now opening entries →
            MatchResult result
            (λ gates. (last_instant (mirrored self.now.port opening entries).acts ≤ t)
            × (ShowsGates (mirrored self.now.port opening entries) t gates))
            (λ _. t < last_instant (mirrored self.now.port opening entries).acts) }
    {
        match self.runner.states_at(t)? {
            Some(entry) => Ok(entry.gates),
            None => Ok(self.value.gates),
        }
    }

    /// Takes in one entry, or leaves the mirror as it was.
    fn take_one(&mut self, entry: &Entry) -> Result<(), AllocError>
        ensures port { self.new.port ≡ self.old.port }
        ensures front { OnOk result (self.new.front ≡ self.old.front + 1) }
        ensures kept { OnErr result (self.new ≡ self.old) }
        ensures shows { OnOk result ((o : Object AnyPortEntry) → Shows self.old o →
            IsOfPort (after_entry port_schedule (keys.Port self.old.port) o entry.now.what) →
            Shows self.new (after_entry port_schedule (keys.Port self.old.port) o entry.now.what)) }
    {
        let Some(front) = self.front.checked_add(1) else {
            return Err(AllocError);
        };
        self.follow(&entry.what)?;
        self.front = front;
        Ok(())
    }

    /// Follows what an entry did.
    fn follow(&mut self, what: &What) -> Result<(), AllocError>
        ensures same { (self.new.port ≡ self.old.port) × (self.new.front ≡ self.old.front) }
        ensures kept { OnErr result (self.new ≡ self.old) }
        ensures shows { OnOk result ((o : Object AnyPortEntry) → Shows self.old o →
            IsOfPort (after_entry port_schedule (keys.Port self.old.port) o what.now) →
            Shows self.new (after_entry port_schedule (keys.Port self.old.port) o what.now)) }
    {
        if let What::Acted { act, key, now } = what {
            if *key == Key::Port(self.port) {
                return self.act(*act, *now);
            }
            return Ok(());
        }
        match part_at(what, self.port) {
            Some(part) => self.change(part),
            None => Ok(()),
        }
    }

    /// Follows a part of a change on the port.
    fn change(&mut self, part: &Part) -> Result<(), AllocError>
        ensures same { (self.new.port ≡ self.old.port) × (self.new.front ≡ self.old.front) }
        ensures kept { OnErr result (self.new ≡ self.old) }
        ensures shows { OnOk result ((o : Object AnyPortEntry) → Shows self.old o → IsOfPort (after_part o (Some part.now))
            → Shows self.new (after_part o (Some part.now))) }
    {
        let Some(Record::Port(value)) = &part.after else {
            return Ok(());
        };
        let value = value.try_clone()?;
        if part.before.is_none() {
            self.begin(value);
            return Ok(());
        }
        self.value = value;
        Ok(())
    }

    /// Keeps this record, and begins a new list.
    fn begin(&mut self, value: PortGates)
        ensures { self.new ≡ record self.old { value = value; runner = fresh } }
    {
        self.value = value;
        self.runner = Runner::new();
    }

    /// Follows an act on the port.
    fn act(&mut self, act: Act, now: Instant) -> Result<(), AllocError>
        ensures same { (self.new.port ≡ self.old.port) × (self.new.front ≡ self.old.front) }
        ensures kept { OnErr result (self.new ≡ self.old) }
        ensures shows { OnOk result ((o : Object AnyPortEntry) → Shows self.old o → IsHistory (acted act now o).acts
            → Shows self.new (acted act now o)) }
    {
        if self.runner.is_past(now) {
            return Ok(());
        }
        match act {
            Act::Enable => {
                let _ = self.runner.enable(now);
                Ok(())
            }
            Act::Disable => {
                self.runner.disable(now);
                Ok(())
            }
            Act::Apply => match self.runner.apply(&self.value.admin, now) {
                Err(Refusal::Memory) => Err(AllocError),
                _ => Ok(()),
            },
        }
    }
}

/// What an entry changed of a port, if it changed it.
fn part_at(what: &What, port: PortId) -> Option<&Part>
    ensures { option_copied result ≡ port_part port what.now }
{
    find_part(what.change()?.parts(), &Key::Port(port))
}

/// The record that a port had before an entry changed it, if it did.
fn record_before(what: &What, port: PortId) -> Option<&PortGates>
    ensures { option_copied result ≡ record_before port what.now }
{
    match &part_at(what, port)?.before {
        Some(Record::Port(before)) => Some(before),
        _ => None,
    }
}

/// The record with which the journal began, of a port that was shown with a record.
fn first_record<'a>(port: PortId, entries: &'a [Entry], shown: &'a PortGates) -> &'a PortGates
    ensures { result.now ≡ first_record port entries.now shown.now }
{
    let mut rest = entries;
    while let Some((entry, more)) = rest.split_first() {
        if let Some(before) = record_before(&entry.what, port) {
            return before;
        }
        rest = more;
    }
    shown
}
