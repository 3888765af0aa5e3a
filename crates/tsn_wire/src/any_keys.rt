//! What a line with members in any order says of a key, and of the record there.
ghost use Rattle.std.specs.Prelude.{◌≡◌, IfSome, IsTrue, Some};
ghost use Rattle.tsn_wire.specs.Lines.{IsOf};
ghost use Rattle.tsn_wire.specs.Spelled.{IsKey};
ghost use Rattle.tsn_wire.specs.Values.{MayHaveList, IsNoPort};

use tsn_records::drafts::{KeyDraft, RecordDraft};
use tsn_types::keys::Kind;
use tsn_types::numbers::identifiers::GREATEST_INSTANCE;

/// A key that some table may have.
pub fn table_key(key: Option<KeyDraft>) -> Option<KeyDraft>
    ensures { IfSome result (λ k. IsKey k × (key ≡ Some k)) }
{
    let key = key?;
    if key.number > GREATEST_INSTANCE {
        return None;
    }
    Some(key)
}

/// A key of a kind that has a gate control list.
pub fn listed_key(key: Option<KeyDraft>) -> Option<KeyDraft>
    ensures { IfSome result (λ k. IsKey k × MayHaveList k.kind × (key ≡ Some k)) }
{
    let key = table_key(key)?;
    match key.kind {
        Kind::Port | Kind::Gate => Some(key),
        Kind::Filter | Kind::Meter => None,
    }
}

/// A key of a kind that can be removed.
pub fn removable_key(key: Option<KeyDraft>) -> Option<KeyDraft>
    ensures { IfSome result (λ k. IsKey k × IsNoPort k.kind × (key ≡ Some k)) }
{
    let key = table_key(key)?;
    match key.kind {
        Kind::Port => None,
        Kind::Filter | Kind::Gate | Kind::Meter => Some(key),
    }
}

/// Whether a record is of the kind.
pub fn is_of(value: &RecordDraft, kind: Kind) -> bool
    ensures { IsTrue result → IsOf kind value.now }
{
    match value {
        RecordDraft::Port(_) => kind == Kind::Port,
        RecordDraft::Filter(_) => kind == Kind::Filter,
        RecordDraft::Gate(_) => kind == Kind::Gate,
        RecordDraft::Meter(_) => kind == Kind::Meter,
    }
}

/// A key, and a record of its kind.
pub fn keyed_record(
    key: Option<KeyDraft>,
    value: Option<RecordDraft>,
) -> Option<(KeyDraft, RecordDraft)>
    ensures { IfSome result (λ p. IsKey p.0 × IsOf p.0.kind p.1 × (key ≡ Some p.0)
        × (value ≡ Some p.1)) }
{
    let key = table_key(key)?;
    let value = value?;
    if is_of(&value, key.kind) {
        Some((key, value))
    } else {
        None
    }
}
