//! Whether a change, or its inverse, fits the configuration.
//!
//! The test looks at the values that stand at the keys, at each record's limits and at its references; that this is
//! enough rests on the configuration being well kept, by its type. A change of several parts is seen as a whole: what a
//! record refers to may come with it, and what refers to a removed key may go with it. Nothing here takes memory.
ghost use Rattle.std.specs.Prelude.{◌≡◌, ◌↔◌, ◌∷◌, [], IfSome, IsTrue, List, is_none, is_some};
ghost use Rattle.std.specs.FinMap as map;
ghost use Rattle.std.specs.List.{IsDistinct};
ghost use Rattle.tsn_types.specs.InRange.{RecordInRange};
ghost use Rattle.tsn_types.specs.Keys.{has, same_key};
ghost use Rattle.tsn_types.specs.declared.keys.Key.{Key as AnyKey};
ghost use Rattle.tsn_table.specs.Firsts.{AnswersAs};
ghost use Rattle.tsn_edit.specs.Changes.{Fits, Stands, keys_of, put_all};
ghost use Rattle.tsn_edit.specs.Edits.{dangling, referrer};
ghost use Rattle.tsn_edit.specs.Parts.{inverse};
ghost use Rattle.tsn_config.specs.Keeping.{keep_together, keeps, keeps_part, referrer_beside};
ghost use Rattle.tsn_config.specs.Ways.{AreInRange, turned, turned_part};

use crate::Config;
use crate::admission::{is_port, refuse_limits};
use tsn_edit::{Change, Part, is_on};
use tsn_types::keys::Key;
use tsn_types::numbers::FilterId;
use tsn_types::records::Record;
use tsn_types::refusals::Refusal;

// A change as it is, or taken back.
#[derive(Clone, Copy)]
enum Way {
    Forth,
    Back,
}

impl Config {
    /// Whether the change fits: its values before stand at its keys, and with its values after there the configuration
    /// is well kept.
    #[tactic(auto, using(crate::proofs::Suffixes::turned_forth))]
    pub fn fits(&self, change: &Change) -> bool
        ensures { IsTrue result ↔ Fits self.now.limits self.now.map change.now }
    {
        match change.parts() {
            [part] => self.fits_between(&part.key, &part.before, &part.after),
            parts => self.fit_together(parts, Way::Forth),
        }
    }

    /// Whether the change's inverse fits.
    pub fn fits_inverse(&self, change: &Change) -> bool
        ensures { IsTrue result ↔ Fits self.now.limits self.now.map (inverse change.now) }
    {
        match change.parts() {
            [part] => self.fits_between(&part.key, &part.after, &part.before),
            parts => self.fit_together(parts, Way::Back),
        }
    }

    // Whether the change of the key alone from one value to the other fits.
    fn fits_between(&self, key: &Key, before: &Option<Record>, after: &Option<Record>) -> bool
        ensures { IsTrue result ↔ Fits self.now.limits self.now.map
            (record { key = key.now; before = before.now; after = after.now } ∷ []) }
    {
        // The proof needs what the type keeps, which reading a field gives, and the ranges of the record's numbers.
        let _kept = &self.limits;
        recall_ranges(after);
        self.stands(key, before) && self.keeps(key, before, after)
    }

    // Whether the value stands at the key.
    fn stands(&self, key: &Key, before: &Option<Record>) -> bool
        ensures { IsTrue result ↔ (map.get self.now.map key.now ≡ before.now) }
    {
        match (self.get(*key), before) {
            (Some(found), Some(value)) => found.is(value),
            (None, None) => true,
            _ => false,
        }
    }

    // Whether the configuration stays well kept with the value after at the key, where the value before stands.
    fn keeps(&self, key: &Key, before: &Option<Record>, after: &Option<Record>) -> bool
        ensures { result ≡ keeps self.now.limits self.now.map key.now before.now after.now }
    {
        match after {
            Some(value) => {
                refuse_limits(self.limits, key, value).is_none()
                    && self.rows.dangling(value).is_none()
            }
            None => before.is_none() || (!is_port(key) && self.referrer(key).is_none()),
        }
    }

    // The refusal for the least filter that refers to the key.
    fn referrer(&self, key: &Key) -> Option<Refusal>
        ensures { result ≡ referrer self.now.map key.now }
    {
        let number = self.rows.referrer(key)?;
        Some(Refusal::Referred(Key::Filter(FilterId::new(number).unwrap())))
    }

    // Whether the change of these parts fits.
    fn fit_together(&self, parts: &[Part], way: Way) -> bool
        ensures { IsTrue result ↔ Fits self.now.limits self.now.map (turned way parts.now) }
    {
        // The proof needs what the type keeps, which reading a field gives.
        let _kept = &self.limits;
        if !are_distinct(parts) {
            return false;
        }
        self.stand(parts, way) && self.keep_together(parts, way)
    }

    // Whether every value before stands at its key.
    fn stand(&self, parts: &[Part], way: Way) -> bool
        ensures stand { IsTrue result ↔ Stands self.now.map (turned way parts.now) }
        ensures ranges { IsTrue result → AreInRange (turned way parts.now) }
    {
        for part in parts {
            // The proof needs the ranges of the record's numbers.
            recall_ranges(after_of(part, way));
            if !self.stands(&part.key, before_of(part, way)) {
                return false;
            }
        }
        true
    }

    // Whether the configuration stays well kept with all the values after, where the values before stand.
    fn keep_together(&self, parts: &[Part], way: Way) -> bool
        ensures { result ≡ keep_together self.now.limits self.now.map (turned way parts.now) }
    {
        for part in parts {
            if !self.keeps_part(parts, way, part) {
                return false;
            }
        }
        true
    }

    // Whether the value after of one of the parts may stand at its key.
    #[tactic(auto, using(crate::proofs::Suffixes::keeps_removed))]
    fn keeps_part(&self, parts: &[Part], way: Way, part: &Part) -> bool
        ensures { result ≡ keeps_part self.now.limits self.now.map (turned way parts.now) (turned_part way part.now) }
    {
        match after_of(part, way) {
            Some(value) => {
                refuse_limits(self.limits, &part.key, value).is_none()
                    && self.are_there(parts, way, value)
            }
            None => {
                before_of(part, way).is_none()
                    || (!is_port(&part.key) && self.referrer_beside(parts, &part.key).is_none())
            }
        }
    }

    // Whether what the record refers to is present after the change.
    fn are_there(&self, parts: &[Part], way: Way, value: &Record) -> bool
        ensures { result ≡ is_none (dangling (put_all self.now.map (turned way parts.now)) value.now) }
    {
        let Record::Filter(filter) = value else {
            return true;
        };
        if !self.has_after(parts, way, Key::Gate(filter.gate)) {
            return false;
        }
        match filter.meter {
            Some(id) => self.has_after(parts, way, Key::Meter(id)),
            None => true,
        }
    }

    // Whether the key is present after the change.
    fn has_after(&self, parts: &[Part], way: Way, key: Key) -> bool
        ensures { result ≡ is_some (map.get (put_all self.now.map (turned way parts.now)) key) }
    {
        for part in parts {
            if is_same(&key, &part.key) {
                return after_of(part, way).is_some();
            }
        }
        self.rows.has(key)
    }

    // The refusal for the least filter that has no part here and refers to the key.
    fn referrer_beside(&self, parts: &[Part], key: &Key) -> Option<Refusal>
        ensures { result ≡ referrer_beside (keys_of parts.now) self.now.map key.now }
    {
        self.referrer_but(key, &|filter: &Key| { is_on(parts, filter) })
    }

    /// The refusal for the least filter that refers to the key, without those whose keys pass the test.
    pub(crate) fn referrer_but<F: Fn(&Key) -> bool>(
        &self,
        key: &Key,
        is_left_out: &F,
    ) -> Option<Refusal>
        requires { F.IsAlwaysCallable is_left_out.now }
        ensures { (ks : List AnyKey) → AnswersAs F.Fn (has ks) is_left_out.now → result ≡ referrer_beside ks self.now.map key.now }
    {
        let mut from = 0;
        while let Some(number) = self.rows.next_referrer(key, from) {
            let filter = Key::Filter(FilterId::new(number).unwrap());
            if !is_left_out(&filter) {
                return Some(Refusal::Referred(filter));
            }
            from = number + 1;
        }
        None
    }
}

// Whether no two of the parts are on one key.
fn are_distinct(parts: &[Part]) -> bool
    ensures { IsTrue result ↔ IsDistinct same_key (keys_of parts.now) }
{
    for (index, part) in parts.iter().enumerate() {
        if is_on(&parts[index + 1..], &part.key) {
            return false;
        }
    }
    true
}

fn is_same(left: &Key, right: &Key) -> bool
    ensures { result ≡ same_key left.now right.now }
{
    left == right
}

// The value before, or the one after where the change is taken back.
fn before_of(part: &Part, way: Way) -> &Option<Record>
    ensures { result.now ≡ (turned_part way part.now).before }
{
    match way {
        Way::Forth => &part.before,
        Way::Back => &part.after,
    }
}

// The value after, or the one before where the change is taken back.
fn after_of(part: &Part, way: Way) -> &Option<Record>
    ensures { result.now ≡ (turned_part way part.now).after }
{
    match way {
        Way::Forth => &part.after,
        Way::Back => &part.before,
    }
}

// The numbers of a value are in their ranges, by their types. It does nothing as the program runs.
fn recall_ranges(value: &Option<Record>)
    ensures { IfSome value.now RecordInRange }
{
    if let Some(whole) = value {
        whole.recall_ranges();
    }
}
