//! What a port, a filter, a gate or a meter shows of itself.
ghost use Rattle.std.specs.Prelude.{◌≡◌, ℕ};
ghost use Rattle.std.specs.Option.{option_copied, option_map};
ghost use Rattle.tsn_chain.specs.State.{gate_state, port_state, read_state};

use crate::data::{FilterData, GateState, Running};
use tsn_schedule::runner::Current;
use tsn_types::numbers::Priority;
use tsn_types::records::{GateEntry, PortEntry, PortGates, StreamGate};

/// The gates of a port, or the state of a stream gate.
#[derive(Clone, Copy, Debug, PartialEq, Eq)]
pub enum State {
    Port {
        /// The gate of traffic class i is open where bit i is 1.
        gates: u8,
    },
    Gate {
        is_open: bool,
        /// The internal priority value; none leaves a frame its own priority.
        ipv: Option<Priority>,
    },
}

/// What is told of the list of a port or a stream gate (802.1Q-2018, 12.29.1).
#[derive(Clone, Copy, Debug, PartialEq, Eq)]
pub struct ListCounters {
    /// ConfigChangeError, at most 2^64 - 1.
    pub change_error: u64,
    /// ConfigChangeTime, in nanoseconds; none where nothing is in force or to come.
    pub change_time: Option<u64>,
    /// GateEnabled.
    pub enabled: bool,
    /// ConfigPending: the change time is yet to come.
    pub pending: bool,
}

/// What is told of an instance.
#[derive(Clone, Copy, Debug, PartialEq, Eq)]
pub enum Counters {
    Port(ListCounters),
    Filter(FilterData),
    Gate {
        list: ListCounters,
        /// GateClosedDueToInvalidRx.
        invalid_rx: bool,
        /// GateClosedDueToOctetsExceeded.
        octets_exceeded: bool,
    },
    Meter {
        /// MarkAllFramesRed.
        all_red: bool,
    },
}

/// The gates of a port by its entry in force; without one, by its record.
pub(crate) fn port_shows(port: &PortGates, entry: Option<&PortEntry>) -> State
    ensures { result ≡ port_state port.now (option_copied entry.entry) }
{
    match entry {
        Some(entry) => State::Port { gates: entry.gates },
        None => State::Port { gates: port.gates },
    }
}

/// The state of a gate by its entry in force; without one, by its record.
pub(crate) fn gate_shows(gate: &StreamGate, entry: Option<&GateEntry>) -> State
    ensures { result ≡ gate_state gate.now (option_copied entry.entry) }
{
    match entry {
        Some(entry) => State::Gate {
            is_open: entry.is_open,
            ipv: entry.ipv,
        },
        None => State::Gate {
            is_open: gate.is_open,
            ipv: gate.ipv,
        },
    }
}

/// The state of a gate as the filter chain reads it, by the entry in force and when its interval began; without them,
/// by its record.
pub(crate) fn read_gate(gate: &StreamGate, current: Option<Current<'_, GateEntry>>) -> GateState
    ensures { result ≡ read_state gate.now (option_map (λ c. c.entry.now) current.entry) (option_map (λ c. c.began) current.entry) }
{
    match current {
        Some(Current { entry, began }) => GateState {
            is_open: entry.is_open,
            ipv: entry.ipv,
            running: Some(Running {
                began,
                octets: entry.octets,
            }),
        },
        None => GateState {
            is_open: gate.is_open,
            ipv: gate.ipv,
            running: None,
        },
    }
}
