//! Looking into a JSON value: its members, its items and their kinds.
//!
//! A member that is not there, or of another kind than is wanted, is a fault of shape.
ghost use Rattle.std.specs.Prelude.{◌≡◌, Option, Some, None};
ghost use Rattle.serde_json.specs.Data.{Data};
ghost use Rattle.serde_json.specs.View.{view};
ghost use Rattle.tsn_records.specs.Answers.{seen};
ghost use Rattle.tsn_records.specs.Json.{as_json, has_members, member_count, item_count, whole, whole_or_null, number_at, flag_at, text_at, value_at};

use crate::allowed::{entry_members_of, members_of};
use crate::formats::Format;
use crate::unread::Unread;
use serde_json::Value;
use tsn_types::keys::Kind;

// 0 of any value that is no object
fn member_count(value: &Value) -> usize
    ensures { result ≡ member_count (view value.now) }
{
    match value.as_object() {
        Some(members) => members.len(),
        None => 0,
    }
}

// 0 of any value that is no array
fn item_count(value: &Value) -> usize
    ensures { result ≡ item_count (view value.now) }
{
    match value.as_array() {
        Some(items) => items.as_slice().len(),
        None => 0,
    }
}

/// Refuses all but an object of that many members.
pub fn has_members(count: usize, value: &Value) -> Result<(), Unread>
    ensures { result ≡ has_members count (view value.now) }
{
    if member_count(value) != count {
        return Err(Unread::Shape);
    }
    Ok(())
}

// null is none
fn whole_or_null(value: &Value) -> Option<Option<u64>>
    ensures { result ≡ whole_or_null (view value.now) }
{
    if value.is_null() {
        return Some(None);
    }
    Some(Some(value.as_u64()?))
}

/// The member of that name as a whole number.
pub fn number_at(name: &str, value: &Value) -> Result<u64, Unread>
    ensures { result ≡ number_at name.now (view value.now) }
{
    value.get(name).and_then(Value::as_u64).ok_or(Unread::Shape)
}

/// The member of that name as true or false.
pub fn flag_at(name: &str, value: &Value) -> Result<bool, Unread>
    ensures { result ≡ flag_at name.now (view value.now) }
{
    value
        .get(name)
        .and_then(Value::as_bool)
        .ok_or(Unread::Shape)
}

/// The member of that name as a text.
pub fn text_at<'a>(name: &str, value: &'a Value) -> Result<&'a str, Unread>
    ensures { seen (λ text. text.now) result ≡ text_at name.now (view value.now) }
{
    value.get(name).and_then(Value::as_str).ok_or(Unread::Shape)
}

/// The member of that name.
pub fn value_at<'a>(name: &str, value: &'a Value) -> Result<&'a Value, Unread>
    ensures { seen (λ member. view member.now) result ≡ value_at name.now (view value.now) }
{
    value.get(name).ok_or(Unread::Shape)
}

/// JSON: null stands for none, and an entry of a list is an array.
pub struct Json;

impl Format for Json {
    type Value = Value;

    ghost View = { Data };

    ghost view = { view };

    ghost look = { as_json };

    // An identifier stands in the key.
    fn only(kind: Kind, value: &Value) -> Result<(), Unread> {
        has_members(members_of(kind).len() - 1, value)
    }

    fn only_entry(kind: Kind, value: &Value) -> Result<(), Unread> {
        if item_count(value) != entry_members_of(kind).len() {
            return Err(Unread::Shape);
        }
        Ok(())
    }

    fn at<'a>(name: &str, value: &'a Value) -> Option<&'a Value> {
        value.get(name)
    }

    fn part<'a>(place: usize, _name: &str, value: &'a Value) -> Option<&'a Value> {
        value.get(place)
    }

    fn number(found: Option<&Value>) -> Result<u64, Unread> {
        found.and_then(Value::as_u64).ok_or(Unread::Shape)
    }

    fn number_or_none(found: Option<&Value>) -> Result<Option<u64>, Unread> {
        found.and_then(whole_or_null).ok_or(Unread::Shape)
    }

    fn flag(found: Option<&Value>) -> Result<bool, Unread> {
        found.and_then(Value::as_bool).ok_or(Unread::Shape)
    }

    #[tactic(auto, using(crate::proofs::Entries::items_of_values))]
    fn items<'a>(found: Option<&'a Value>) -> Result<&'a [Value], Unread> {
        match found {
            Some(value) => match value.as_array() {
                Some(items) => Ok(items.as_slice()),
                None => Err(Unread::Shape),
            },
            None => Err(Unread::Shape),
        }
    }
}
