//! Looking into a TOML value: its members and their kinds.
//!
//! A member that is not there, or of another kind than is wanted, is a fault of shape.
ghost use Rattle.std.specs.Prelude.{◌≡◌, map, option_map};
ghost use Rattle.std.specs.List.{list_any};
ghost use Rattle.std.specs.Str.{bytes_eq};
ghost use Rattle.toml.specs.Data.{Data};
ghost use Rattle.toml.specs.View.{view, table_view, array_view};
ghost use Rattle.tsn_records.specs.Answers.{seen};
ghost use Rattle.tsn_setup.specs.Toml.{natural, whole, are_among, has_only, number_at, number_or_none_at, items_or_none_at, as_toml};

use toml::Value;
use toml::value::{Array, Table};
use tsn_records::allowed::{Member, entry_members_of, members_of};
use tsn_records::formats::Format;
use tsn_records::unread::Unread;
use tsn_types::keys::Kind;

fn is_among(name: &str, members: &[Member]) -> bool
    ensures { result ≡ list_any (λ known. bytes_eq known name.now) (map (λ member. member.0.now) members.now) }
{
    for member in members {
        if member.0 == name {
            return true;
        }
    }
    false
}

fn are_among(members: &[Member], table: &Table) -> bool
    ensures { result ≡ are_among (map (λ member. member.0.now) members.now) (table_view table.now) }
{
    'rows: for (name, _value) in table.iter() {
        if !is_among(name.as_str(), members) {
            return false;
        }
    }
    true
}

/// Refuses all but a table with no members but these.
pub fn has_only(members: &[Member], value: &Value) -> Result<(), Unread>
    ensures { result ≡ has_only (map (λ member. member.0.now) members.now) (view value.now) }
{
    match value.as_table() {
        Some(table) => {
            if are_among(members, table) {
                Ok(())
            } else {
                Err(Unread::Shape)
            }
        }
        None => Err(Unread::Shape),
    }
}

pub fn natural(number: i64) -> Option<u64>
    ensures { result ≡ natural number }
{
    u64::try_from(number).ok()
}

fn whole(value: &Value) -> Option<u64>
    ensures { result ≡ whole (view value.now) }
{
    match value.as_integer() {
        Some(number) => natural(number),
        None => None,
    }
}

/// The member of that name as a whole number from 0 up.
pub fn number_at(name: &str, value: &Value) -> Result<u64, Unread>
    ensures { result ≡ number_at name.now (view value.now) }
{
    Toml::number(value.get(name))
}

/// The member of that name as a whole number from 0 up, or none where it is left out.
pub fn number_or_none_at(name: &str, value: &Value) -> Result<Option<u64>, Unread>
    ensures { result ≡ number_or_none_at name.now (view value.now) }
{
    Toml::number_or_none(value.get(name))
}

/// The member of that name as an array, or none where it is left out.
pub fn items_or_none_at<'a>(name: &str, value: &'a Value) -> Result<Option<&'a Array>, Unread>
    ensures { seen (option_map (λ items. array_view items.now)) result ≡ items_or_none_at name.now (view value.now) }
{
    match value.get(name) {
        Some(member) => match member.as_array() {
            Some(items) => Ok(Some(items)),
            None => Err(Unread::Shape),
        },
        None => Ok(None),
    }
}

/// TOML: what stands for none is left out, and an entry of a list is a table.
pub struct Toml;

impl Format for Toml {
    type Value = Value;

    ghost View = { Data };

    ghost view = { view };

    ghost look = { as_toml };

    fn only(kind: Kind, value: &Value) -> Result<(), Unread> {
        has_only(members_of(kind), value)
    }

    fn only_entry(kind: Kind, value: &Value) -> Result<(), Unread> {
        has_only(entry_members_of(kind), value)
    }

    fn at<'a>(name: &str, value: &'a Value) -> Option<&'a Value> {
        value.get(name)
    }

    fn part<'a>(_place: usize, name: &str, value: &'a Value) -> Option<&'a Value> {
        value.get(name)
    }

    fn number(found: Option<&Value>) -> Result<u64, Unread> {
        found.and_then(whole).ok_or(Unread::Shape)
    }

    fn number_or_none(found: Option<&Value>) -> Result<Option<u64>, Unread> {
        match found {
            Some(value) => match whole(value) {
                Some(number) => Ok(Some(number)),
                None => Err(Unread::Shape),
            },
            None => Ok(None),
        }
    }

    fn flag(found: Option<&Value>) -> Result<bool, Unread> {
        found.and_then(Value::as_bool).ok_or(Unread::Shape)
    }

    #[tactic(auto, using(crate::proofs::Items::items_of_values))]
    fn items<'a>(found: Option<&'a Value>) -> Result<&'a [Value], Unread> {
        match found {
            Some(value) => match value.as_array() {
                Some(items) => Ok(items.as_slice()),
                None => Err(Unread::Shape),
            },
            None => Err(Unread::Shape),
        }
    }
}
