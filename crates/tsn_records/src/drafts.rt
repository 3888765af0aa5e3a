//! Drafts: records of the right shape, whose numbers may still be outside their ranges.
//!
//! Reading goes in two steps. The first finds the members and their kinds and gives a draft; the second tests each
//! number against its range. So every fault of shape is found before any fault of range.
ghost use Rattle.std.specs.Prelude.{◌≡◌, IfSome, Some};

use tsn_types::keys::Kind;
use tsn_types::lists::ControlList;

/// An entry `[gates, interval]` of a port's gate control list.
#[derive(Clone, Copy, Debug, PartialEq, Eq)]
pub struct PortEntryDraft {
    pub gates: u64,
    pub interval: u64,
}

/// An entry `[open, ipv, interval, octets]` of a stream gate's control list.
#[derive(Clone, Copy, Debug, PartialEq, Eq)]
pub struct GateEntryDraft {
    pub is_open: bool,
    pub ipv: Option<u64>,
    pub interval: u64,
    pub octets: Option<u64>,
}

/// The members `list`, `cycle`, `extension` and `base`.
#[derive(Debug, Drop)]
pub struct ScheduleDraft<E> {
    pub list: ControlList<E>,
    pub cycle: u64,
    pub extension: u64,
    pub base: u64,
}

impl<E: Drop> ScheduleDraft<E> {
    /// The schedule of these members, where each of them was found.
    pub fn of(
        list: Option<ControlList<E>>,
        cycle: Option<u64>,
        extension: Option<u64>,
        base: Option<u64>,
    ) -> Option<Self>
        ensures { IfSome result (λ s. (list ≡ Some s.list) × (cycle ≡ Some s.cycle)
            × (extension ≡ Some s.extension) × (base ≡ Some s.base)) }
    {
        Some(ScheduleDraft {
            list: list?,
            cycle: cycle?,
            extension: extension?,
            base: base?,
        })
    }
}

/// A member of a record, whose number may still be outside its range.
#[derive(Debug, Drop)]
pub enum MemberDraft {
    /// It was not read.
    Unread,
    Number(u64),
    /// A number, or what stands for none.
    Maybe(Option<u64>),
    Flag(bool),
    PortList(ControlList<PortEntryDraft>),
    GateList(ControlList<GateEntryDraft>),
}

/// The record of a port.
#[derive(Debug, Drop)]
pub struct PortDraft {
    pub gates: u64,
    pub admin: ScheduleDraft<PortEntryDraft>,
}

/// The record of a stream gate.
#[derive(Debug, Drop)]
pub struct GateDraft {
    pub is_open: bool,
    pub ipv: Option<u64>,
    pub admin: ScheduleDraft<GateEntryDraft>,
    pub invalid_rx: bool,
    pub octets_exceeded: bool,
}

/// The record of a stream filter.
#[derive(Clone, Copy, Debug, PartialEq, Eq)]
pub struct FilterDraft {
    pub handle: Option<u64>,
    pub priority: Option<u64>,
    pub gate: u64,
    pub max_sdu: Option<u64>,
    pub meter: Option<u64>,
    pub oversize: bool,
}

/// The record of a flow meter.
#[derive(Clone, Copy, Debug, PartialEq, Eq)]
pub struct MeterDraft {
    pub cir: u64,
    pub cbs: u64,
    pub eir: u64,
    pub ebs: u64,
    pub cf: bool,
    pub aware: bool,
    pub drop_yellow: bool,
    pub all_red: bool,
}

/// A record of one of the four kinds.
#[derive(Debug, Drop)]
pub enum RecordDraft {
    Port(PortDraft),
    Filter(FilterDraft),
    Gate(GateDraft),
    Meter(MeterDraft),
}

/// A key, of at most ten digits.
#[derive(Clone, Copy, Debug, PartialEq, Eq)]
pub struct KeyDraft {
    pub kind: Kind,
    pub number: u64,
}
