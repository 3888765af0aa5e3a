//! The tables of records, and the limits.
ghost use Rattle.std.specs.Prelude.{◌≡◌, ◌++◌, OnOk};
ghost use Rattle.std.specs.FinMap as map;
ghost use Rattle.tsn_types.specs.Keys.{number_of};
ghost use Rattle.tsn_types.specs.declared.records.Record.TheVariants.{Port as PortRecord};
ghost use Rattle.tsn_export.specs.Going.{entry_text, text_of};
ghost use Rattle.tsn_export.specs.Text.{filter_table, gate_table, is_default, limits_text, meter_table, port_table};

use crate::text::PlainText;
use std::alloc::AllocError;
use tsn_config::Config;
use tsn_types::keys::Key;
use tsn_types::limits::Limits;
use tsn_types::numbers::{Handle, MaxSdu, MeterId, Priority};
use tsn_types::records::{FlowMeter, PortGates, RecordRef, StreamFilter, StreamGate};

// The number of the instance that the key names.
fn number_of(key: &Key) -> u64
    ensures { result ≡ number_of key.now }
{
    match key {
        Key::Port(id) => id.get(),
        Key::Filter(id) => id.get(),
        Key::Gate(id) => id.get(),
        Key::Meter(id) => id.get(),
    }
}

// Whether the port is as it is where no setup names it.
fn is_default(port: &PortGates) -> bool
    ensures { result ≡ is_default (PortRecord port.now) }
{
    port.gates == 255
        && port.admin.list.len() == 0
        && port.admin.cycle.get() == 1_000_000
        && port.admin.extension.get() == 0
        && port.admin.base.get() == 0
}

impl PlainText {
    // Puts the lines of all limits at the end.
    pub(crate) fn push_limits(&mut self, limits: Limits) -> Result<(), AllocError>
        ensures { OnOk result (self.new ≡ self.old ++ limits_text limits) }
    {
        self.number_line("ports", limits.ports())?;
        self.number_line("max_filters", limits.filters())?;
        self.number_line("max_gates", limits.gates())?;
        self.number_line("max_meters", limits.meters())?;
        self.number_line("list_max", limits.list())
    }

    // Puts the table of the key's record at the end, unless it is one that no setup names.
    pub(crate) fn push_entry(&mut self, config: &Config, key: Key) -> Result<(), AllocError>
        ensures { OnOk result (self.new ≡ self.old ++ text_of entry_text key (map.get config.now.map key)) }
    {
        let id = number_of(&key);
        match config.get(key) {
            Some(RecordRef::Port(port)) => {
                if is_default(port) {
                    return Ok(());
                }
                self.push_port(id, port)
            }
            Some(RecordRef::Filter(filter)) => self.push_filter(id, filter),
            Some(RecordRef::Gate(gate)) => self.push_gate(id, gate),
            Some(RecordRef::Meter(meter)) => self.push_meter(id, meter),
            None => Ok(()),
        }
    }

    fn push_port(&mut self, id: u64, port: &PortGates) -> Result<(), AllocError>
        ensures { OnOk result (self.new ≡ self.old ++ port_table id port.now) }
    {
        self.push("\n[[port]]\n")?;
        self.number_line("id", id)?;
        self.number_line("gates", u64::from(port.gates))?;
        self.list_lines(port.admin.list.as_slice())?;
        self.number_line("cycle", port.admin.cycle.get())?;
        self.number_line("extension", port.admin.extension.get())?;
        self.number_line("base", port.admin.base.get())
    }

    fn push_filter(&mut self, id: u64, filter: &StreamFilter) -> Result<(), AllocError>
        ensures { OnOk result (self.new ≡ self.old ++ filter_table id filter.now) }
    {
        self.push("\n[[filter]]\n")?;
        self.number_line("id", id)?;
        self.number_or_none_line("handle", filter.handle.map(Handle::get))?;
        self.number_or_none_line("priority", filter.priority.map(Priority::get))?;
        self.number_line("gate", filter.gate.get())?;
        self.number_or_none_line("max_sdu", filter.max_sdu.map(MaxSdu::get))?;
        self.number_or_none_line("meter", filter.meter.map(MeterId::get))?;
        self.flag_line("oversize", filter.oversize)
    }

    fn push_gate(&mut self, id: u64, gate: &StreamGate) -> Result<(), AllocError>
        ensures { OnOk result (self.new ≡ self.old ++ gate_table id gate.now) }
    {
        self.push("\n[[gate]]\n")?;
        self.number_line("id", id)?;
        self.flag_line("open", gate.is_open)?;
        self.number_or_none_line("ipv", gate.ipv.map(Priority::get))?;
        self.list_lines(gate.admin.list.as_slice())?;
        self.number_line("cycle", gate.admin.cycle.get())?;
        self.number_line("extension", gate.admin.extension.get())?;
        self.number_line("base", gate.admin.base.get())?;
        self.flag_line("invalid_rx", gate.invalid_rx)?;
        self.flag_line("octets_exceeded", gate.octets_exceeded)
    }

    fn push_meter(&mut self, id: u64, meter: &FlowMeter) -> Result<(), AllocError>
        ensures { OnOk result (self.new ≡ self.old ++ meter_table id meter.now) }
    {
        self.push("\n[[meter]]\n")?;
        self.number_line("id", id)?;
        self.number_line("cir", meter.cir.get())?;
        self.number_line("cbs", meter.cbs.get())?;
        self.number_line("eir", meter.eir.get())?;
        self.number_line("ebs", meter.ebs.get())?;
        self.flag_line("cf", meter.cf)?;
        self.flag_line("aware", meter.aware)?;
        self.flag_line("drop_yellow", meter.drop_yellow)?;
        self.flag_line("all_red", meter.all_red)
    }
}
