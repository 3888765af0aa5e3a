//! Text formats: how a value of one is looked into.
ghost use Rattle.std.specs.Prelude.{◌≡◌, map, option_map};
ghost use Rattle.tsn_records.specs.Answers.{seen};
ghost use Rattle.tsn_records.specs.Looks.{Look};

use crate::unread::Unread;
use tsn_types::keys::Kind;

/// A text format whose values show records.
pub trait Format {
    type Value;

    ghost View: { Type 0 };

    ghost view: { Self.Value → View };

    ghost look: { Look View };

    /// Refuses all but a value with the members of a record of the kind.
    fn only(kind: Kind, value: &Self::Value) -> Result<(), Unread>
        ensures { result ≡ look.only kind (view value.now) };

    /// Refuses all but a value with the members of an entry of a list of the kind.
    fn only_entry(kind: Kind, value: &Self::Value) -> Result<(), Unread>
        ensures { result ≡ look.only_entry kind (view value.now) };

    /// The member of that name.
    fn at<'a>(name: &str, value: &'a Self::Value) -> Option<&'a Self::Value>
        ensures { option_map (λ found. view found.now) result ≡ look.at name.now (view value.now) };

    /// The member of an entry: where entries are arrays the one at that place, else the one of that name.
    fn part<'a>(place: usize, name: &str, value: &'a Self::Value) -> Option<&'a Self::Value>
        ensures { option_map (λ found. view found.now) result
            ≡ look.part place name.now (view value.now) };

    /// A whole number from 0 up.
    fn number(found: Option<&Self::Value>) -> Result<u64, Unread>
        ensures { result ≡ look.number (option_map (λ found. view found.now) found.entry) };

    /// A whole number from 0 up, or what stands for none.
    fn number_or_none(found: Option<&Self::Value>) -> Result<Option<u64>, Unread>
        ensures { result ≡ look.number_or_none (option_map (λ found. view found.now) found.entry) };

    /// True or false.
    fn flag(found: Option<&Self::Value>) -> Result<bool, Unread>
        ensures { result ≡ look.flag (option_map (λ found. view found.now) found.entry) };

    /// The items of an array.
    fn items<'a>(found: Option<&'a Self::Value>) -> Result<&'a [Self::Value], Unread>
        ensures { seen (λ items. map view items.now) result
            ≡ look.items (option_map (λ found. view found.now) found.entry) };
}
