//! Which lines are told of a configuration.
ghost use Rattle.std.specs.Prelude.{◌≡◌, ◌≤◌, ◌++◌, IfOk, IsSome, OnOk, Some, false, length};
ghost use Rattle.std.specs.FinMap as map;
ghost use Rattle.tsn_types.specs.Bounds.{longest_list};
ghost use Rattle.tsn_edit.specs.Configuration.{IsWellKept};
ghost use Rattle.tsn_edit.specs.Edits.{is_port};
ghost use Rattle.tsn_export.specs.Going.{text_of};
ghost use Rattle.tsn_remarks.specs.Remarks.{is_referred, list_remark, reference_remark, remarks, remarks_of, remarks_on};

use crate::lines::{list_line, reference_line};
use crate::lists::taken;
use std::alloc::{AllocError, Global};
use tsn_config::Config;
use tsn_config::ids::key_of;
use tsn_edit::Edit;
use tsn_edit::batches::Batch;
use tsn_export::PlainText;
use tsn_schedule::timed::Timed;
use tsn_types::keys::{Key, Kind};
use tsn_types::records::{RecordRef, Schedule};

/// What is allowed in the configuration, but seldom meant: of the ports, then of the stream gates, then of the flow
/// meters, each kind by number. Refused only for want of memory.
pub fn remarks(alloc: Global, config: &Config) -> Result<PlainText, AllocError>
    ensures { IfOk result (λ text. text ≡ remarks config.now.map) }
{
    // The proof needs what the configuration's type keeps, which its limits tell.
    let _kept = config.limits();
    let mut text = PlainText::new(alloc);
    push_kind(&mut text, alloc, config, Kind::Port)?;
    push_kind(&mut text, alloc, config, Kind::Gate)?;
    push_kind(&mut text, alloc, config, Kind::Meter)?;
    Ok(text)
}

// Whether a filter refers to the key. Just then its removal is refused, which the configuration's indexes tell.
fn is_referred(config: &Config, key: &Key) -> bool
    requires kept { IsWellKept config.now.limits config.now.map }
    requires there { IsSome (map.get config.now.map key.now) }
    requires removable { is_port key.now ≡ false }
    ensures { result ≡ is_referred (map.entries config.now.map) key.now }
{
    config.check(&Batch::one(Edit::Remove(*key))).is_some()
}

// Puts the lines on what is of a kind at the end.
fn push_kind(
    text: &mut PlainText,
    alloc: Global,
    config: &Config,
    kind: Kind,
) -> Result<(), AllocError>
    requires { IsWellKept config.now.limits config.now.map }
    ensures { OnOk result (text.new ≡ text.old ++ remarks_of kind (map.entries config.now.map)) }
{
    let ids = config.ids(alloc, kind)?;
    for id in ids.as_slice() {
        push_entry(text, config, &key_of(kind, *id))?;
    }
    Ok(())
}

// Puts the lines on what stands at the key at the end.
fn push_entry(text: &mut PlainText, config: &Config, key: &Key) -> Result<(), AllocError>
    requires { IsWellKept config.now.limits config.now.map }
    ensures { OnOk result (text.new
        ≡ text.old ++ text_of (remarks_on (map.entries config.now.map)) key.now (map.get config.now.map key.now)) }
{
    match config.get(*key) {
        Some(RecordRef::Port(port)) => push_list(text, key, &port.admin),
        Some(RecordRef::Gate(gate)) => {
            push_list(text, key, &gate.admin)?;
            push_reference(text, config, key)
        }
        Some(RecordRef::Meter(_)) => push_reference(text, config, key),
        _ => Ok(()),
    }
}

// Puts the line on a list at the end, if there is one.
fn push_list<E: Timed>(
    text: &mut PlainText,
    key: &Key,
    admin: &Schedule<E>,
) -> Result<(), AllocError>
    requires { length admin.now.list ≤ longest_list }
    ensures { OnOk result (text.new ≡ text.old ++ list_remark E.interval key.now admin.now) }
{
    let taken = taken(admin.list.as_slice());
    let cycle = admin.cycle.get();
    if admin.list.len() == 0 || taken == cycle {
        return Ok(());
    }
    list_line(text, key, taken, cycle)
}

// Puts the line on the references to the key at the end, if there is one.
fn push_reference(text: &mut PlainText, config: &Config, key: &Key) -> Result<(), AllocError>
    requires kept { IsWellKept config.now.limits config.now.map }
    requires there { IsSome (map.get config.now.map key.now) }
    requires removable { is_port key.now ≡ false }
    ensures { OnOk result (text.new ≡ text.old ++ reference_remark (map.entries config.now.map) key.now) }
{
    if is_referred(config, key) {
        return Ok(());
    }
    reference_line(text, key)
}
