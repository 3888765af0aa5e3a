//! Why edits that are made at once are refused.
//!
//! The causes of an edit are tested in the order of their numbers: 3, 4, 6, 7, 8, 9. Of all the edits of a batch the
//! least cause counts, and of several with that number the one of the first edit. It relies on the rows for look-ups,
//! and on the limits for all that depends on no other record.
ghost use Rattle.std.specs.Prelude.{◌≡◌, is_some};
ghost use Rattle.std.specs.FinMap as map;
ghost use Rattle.tsn_types.specs.Limits.{first_cause};
ghost use Rattle.tsn_types.specs.Refusals.{lesser};
ghost use Rattle.tsn_edit.specs.Batches.{causes, referrer_beside, refusal, result as result_of, value_of};
ghost use Rattle.tsn_edit.specs.Edits.{dangling, is_of_kind, is_port, limit_causes};
ghost use Rattle.tsn_edit.specs.declared.Edit.TheVariants.{Create, Replace, Remove};

use crate::Config;
use tsn_edit::Edit;
use tsn_edit::batches::{Batch, is_edited};
use tsn_types::keys::Key;
use tsn_types::limits::Limits;
use tsn_types::records::Record;
use tsn_types::refusals::{Field, Refusal};

impl Config {
    /// Why the edits are refused: the cause of the least number, none where they are admitted. Of causes of that number
    /// the first edit's is named; of absent references the gate before the meter, and of filters that refer to a key
    /// the least. Whether a key is there is asked of the map before; what a record refers to is to be there once all
    /// edits are made; a key goes only if each filter that refers to it has an edit here. It takes no memory.
    pub fn check(&self, batch: &Batch) -> Option<Refusal>
        ensures { result ≡ refusal self.now.limits self.now.map batch.now }
    {
        let edits = batch.edits();
        let mut least = None;
        for edit in edits {
            least = lesser(least, self.refuse_edit(edits, edit));
        }
        least
    }

    // Why one of the edits is refused, in the order of the causes' numbers.
    fn refuse_edit(&self, edits: &[Edit], edit: &Edit) -> Option<Refusal>
        ensures { result ≡ first_cause (causes self.now.limits self.now.map edits.now edit.now) }
    {
        match edit {
            Edit::Create(key, value) => self.refuse_create(edits, key, value),
            Edit::Replace(key, value) => self.refuse_replace(edits, key, value),
            Edit::Remove(key) => self.refuse_remove(edits, key),
        }
    }

    // Why the record is not created at the key.
    fn refuse_create(&self, edits: &[Edit], key: &Key, value: &Record) -> Option<Refusal>
        ensures { result ≡ first_cause (causes self.now.limits self.now.map edits.now (Create key.now value.now)) }
    {
        if let Some(why) = refuse_limits(self.limits, key, value) {
            return Some(why);
        }
        if self.rows.has(*key) {
            return Some(Refusal::Exists(*key));
        }
        self.dangling_after(edits, value)
    }

    // Why the record does not take the place of the one at the key.
    fn refuse_replace(&self, edits: &[Edit], key: &Key, value: &Record) -> Option<Refusal>
        ensures { result ≡ first_cause (causes self.now.limits self.now.map edits.now (Replace key.now value.now)) }
    {
        if let Some(why) = refuse_limits(self.limits, key, value) {
            return Some(why);
        }
        if !self.rows.has(*key) {
            return Some(Refusal::Missing(*key));
        }
        self.dangling_after(edits, value)
    }

    // Why the record at the key is not removed.
    fn refuse_remove(&self, edits: &[Edit], key: &Key) -> Option<Refusal>
        ensures { result ≡ first_cause (causes self.now.limits self.now.map edits.now (Remove key.now)) }
    {
        if is_port(key) {
            return Some(Refusal::Shape);
        }
        if !self.limits.holds(*key) {
            return Some(Refusal::Range(Field::Key));
        }
        if !self.rows.has(*key) {
            return Some(Refusal::Missing(*key));
        }
        self.unedited_referrer(edits, key)
    }

    // The refusal for a reference of the record that is absent once all the edits are made, the gate before the meter.
    fn dangling_after(&self, edits: &[Edit], value: &Record) -> Option<Refusal>
        ensures { result ≡ dangling (result_of self.now.map edits.now) value.now }
    {
        let Record::Filter(filter) = value else {
            return None;
        };
        let gate = Key::Gate(filter.gate);
        if !self.is_there_after(edits, &gate) {
            return Some(Refusal::Dangling(gate));
        }
        let meter = Key::Meter(filter.meter?);
        if self.is_there_after(edits, &meter) {
            return None;
        }
        Some(Refusal::Dangling(meter))
    }

    // Whether the key is present once all the edits are made.
    fn is_there_after(&self, edits: &[Edit], key: &Key) -> bool
        ensures { result ≡ is_some (map.get (result_of self.now.map edits.now) key.now) }
    {
        let mut rest = edits;
        while let Some((first, others)) = rest.split_first() {
            if *key == first.key() {
                return puts(first);
            }
            rest = others;
        }
        self.rows.has(*key)
    }

    // The refusal for the least filter that refers to the key and has no edit here.
    fn unedited_referrer(&self, edits: &[Edit], key: &Key) -> Option<Refusal>
        ensures { result ≡ referrer_beside self.now.map edits.now key.now }
    {
        self.referrer_but(key, &|filter: &Key| { is_edited(edits, filter) })
    }
}

// Whether the edit puts a record at its key.
fn puts(edit: &Edit) -> bool
    ensures { result ≡ is_some (value_of edit.now) }
{
    !matches!(edit, Edit::Remove(_))
}

// Of two causes the one of the lesser rank, and of two with one rank the first.
fn lesser(first: Option<Refusal>, second: Option<Refusal>) -> Option<Refusal>
    ensures { result ≡ lesser first second }
{
    let (Some(one), Some(other)) = (first, second) else {
        return first.or(second);
    };
    if other.rank() < one.rank() {
        second
    } else {
        first
    }
}

// Why the record may not stand at the key, by the limits alone.
pub(crate) fn refuse_limits(limits: Limits, key: &Key, value: &Record) -> Option<Refusal>
    ensures { result ≡ first_cause (limit_causes limits key.now value.now) }
{
    if !is_of_kind(key, value) {
        return Some(Refusal::Shape);
    }
    if !limits.holds(*key) {
        return Some(Refusal::Range(Field::Key));
    }
    limits.refuse(value)
}

fn is_of_kind(key: &Key, value: &Record) -> bool
    ensures { result ≡ is_of_kind key.now value.now }
{
    matches!(
        (key, value),
        (Key::Port(_), Record::Port(_))
            | (Key::Filter(_), Record::Filter(_))
            | (Key::Gate(_), Record::Gate(_))
            | (Key::Meter(_), Record::Meter(_))
    )
}

pub(crate) fn is_port(key: &Key) -> bool
    ensures { result ≡ is_port key.now }
{
    matches!(key, Key::Port(_))
}
