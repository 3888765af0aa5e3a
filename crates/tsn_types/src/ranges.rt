//! That the numbers of a record are in their ranges, as each number's type keeps it.
//!
//! Contracts see the numbers of a record as plain numbers. Each call here tells the ranges of those that it is given,
//! for the proofs above, and does nothing as the program runs.
ghost use Rattle.tsn_types.specs.InRange.{FilterInRange, GateEntryInRange, GateInRange, MeterInRange, PortEntryInRange, PortInRange, RecordInRange};
ghost use Rattle.tsn_types.specs.Numbers.{IsCycle, IsExtension, IsInstant};

use crate::numbers::{Handle, MaxSdu, MeterId, Octets, Priority};
use crate::records::{
    FlowMeter, GateEntry, PortEntry, PortGates, Record, Schedule, StreamFilter, StreamGate,
};

impl Record {
    /// The numbers of the record are in their ranges, by their types. It does nothing as the program runs.
    pub fn recall_ranges(&self)
        ensures { RecordInRange self.now }
    {
        match self {
            Record::Port(ports) => recall_port(ports),
            Record::Filter(filter) => recall_filter(filter),
            Record::Gate(gate) => recall_gate(gate),
            Record::Meter(meter) => recall_meter(meter),
        }
    }
}

fn recall_port(ports: &PortGates)
    ensures { PortInRange ports.now }
{
    let _gates = ports.gates;
    recall_times(&ports.admin);
    for entry in ports.admin.list.as_slice() {
        recall_port_entry(entry);
    }
}

fn recall_port_entry(entry: &PortEntry)
    ensures { PortEntryInRange entry.now }
{
    let _gates = entry.gates;
    let _interval = entry.interval.get();
}

fn recall_gate(gate: &StreamGate)
    ensures { GateInRange gate.now }
{
    let _ipv = gate.ipv.map(Priority::get);
    recall_times(&gate.admin);
    for entry in gate.admin.list.as_slice() {
        recall_gate_entry(entry);
    }
}

fn recall_gate_entry(entry: &GateEntry)
    ensures { GateEntryInRange entry.now }
{
    let _ipv = entry.ipv.map(Priority::get);
    let _interval = entry.interval.get();
    let _octets = entry.octets.map(Octets::get);
}

fn recall_times<E: Drop>(schedule: &Schedule<E>)
    ensures cycle { IsCycle schedule.now.cycle }
    ensures extension { IsExtension schedule.now.extension }
    ensures base { IsInstant schedule.now.base }
{
    let _cycle = schedule.cycle.get();
    let _extension = schedule.extension.get();
    let _base = schedule.base.get();
}

fn recall_filter(filter: &StreamFilter)
    ensures { FilterInRange filter.now }
{
    let _handle = filter.handle.map(Handle::get);
    let _priority = filter.priority.map(Priority::get);
    let _gate = filter.gate.get();
    let _max_sdu = filter.max_sdu.map(MaxSdu::get);
    let _meter = filter.meter.map(MeterId::get);
}

fn recall_meter(meter: &FlowMeter)
    ensures { MeterInRange meter.now }
{
    let _cir = meter.cir.get();
    let _cbs = meter.cbs.get();
    let _eir = meter.eir.get();
    let _ebs = meter.ebs.get();
}
