//! Documents that end too early, at every byte.
use crate::setup::members::{reads, refusal_of};
use crate::setup::samples::EXAMPLE;
use std::alloc::Global;
use std::process::Abort;
use std::test::Fail;
use tsn_types::refusals::Refusal;

/// A filter, its gate and its meter; the gate's list is not inline.
const FULL: &'static str = "max_gates = 5

[[filter]]
id = 0
gate = 4
meter = 0
oversize = true
priority = 3

[[gate]]
id = 4
open = false
cycle = 2000
extension = 0
base = 0
invalid_rx = false
octets_exceeded = true

[[gate.list]]
open = true
ipv = 5
interval = 1000
octets = 150

[[gate.list]]
open = false
interval = 1000

[[meter]]
id = 0
cir = 8_000_000
cbs = 0x5dc
eir = 7
ebs = +9
cf = true
aware = false
drop_yellow = true
all_red = false
";

/// The document is no TOML, or has not the shape of a setup.
fn is_cut(rt: &impl Abort, alloc: Global, text: &[u8]) -> Result<(), Fail> {
    let found = refusal_of(alloc, text)?;
    let is_refused = matches!(found, Some(Refusal::Syntax | Refusal::Shape));
    assert!(rt; is_refused, "at {}", text.len());
    Ok(())
}

/// The document is read, or is refused by what it says itself.
fn may_be_cut(rt: &impl Abort, alloc: Global, text: &[u8]) -> Result<(), Fail> {
    match refusal_of(alloc, text)? {
        None | Some(Refusal::Syntax | Refusal::Shape | Refusal::Range(_)) => {}
        Some(_) => assert!(rt; false, "at {}", text.len()),
    }
    Ok(())
}

// Before the last entry of its list ends, a port has no list; of several tables the first ones may be whole.
#[test]
fn a_document_may_be_cut(rt: HostRuntime) -> Result<(), Fail> {
    let text = EXAMPLE.as_bytes();
    for end in 1..text.len() - 1 {
        is_cut(&rt, rt.alloc(), &text[..end])?;
    }
    reads(&rt, rt.alloc(), &text[..text.len() - 1], None)?;
    reads(&rt, rt.alloc(), text, None)?;
    let text = FULL.as_bytes();
    for end in 0..text.len() + 1 {
        may_be_cut(&rt, rt.alloc(), &text[..end])?;
    }
    Ok(())
}
