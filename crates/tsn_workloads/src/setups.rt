//! Setups as TOML documents.

use crate::numbers::Random;
use crate::text::Text;
use std::alloc::Global;

/// The limits of a setup: its ports, and the sizes of its tables of filters, gates and meters and of its lists.
pub fn put_limits(text: &mut Text, ports: u64, tables: [u64; 3], entries: u64) {
    let [filters, gates, meters] = tables;
    let limits = [
        ("ports = ", ports),
        ("\nmax_filters = ", filters),
        ("\nmax_gates = ", gates),
        ("\nmax_meters = ", meters),
        ("\nlist_max = ", entries),
    ];
    for (name, most) in limits {
        text.with(name, most);
    }
    text.put("\n");
}

/// A port with a list of so many entries, in the order of a document that a person would write.
pub fn put_port(text: &mut Text, random: &mut Random, number: u64, entries: u64) {
    text.with("\n[[port]]\nid = ", number);
    text.with("\ngates = ", random.below(256));
    text.with("\ncycle = ", 1_000_000 + random.below(1_000_000_000));
    text.put("\nextension = 0\nbase = 0\nlist = [\n");
    for _ in 0..entries {
        text.with("  {gates = ", random.below(256));
        text.with(", interval = ", 500 + random.below(250_000));
        text.put("},\n");
    }
    text.put("]\n");
}

fn put_gate(text: &mut Text, random: &mut Random, number: u64) {
    text.with("\n[[gate]]\nid = ", number);
    text.put(
        "\nopen = true\ninvalid_rx = false\noctets_exceeded = false\nextension = 0\nbase = 0\n",
    );
    text.with("cycle = ", 250_000 + random.below(1_000_000));
    text.with("\nipv = ", random.below(8));
    text.with(
        "\nlist = [{open = true, interval = ",
        500 + random.below(100_000),
    );
    text.with("}, {open = false, interval = ", 500 + random.below(100_000));
    text.put("}]\n");
}

fn put_meter(text: &mut Text, random: &mut Random, number: u64) {
    text.with("\n[[meter]]\nid = ", number);
    text.with("\ncir = ", random.below(1_000_000_000));
    text.with("\ncbs = ", 1500 + random.below(60_000));
    text.put(
        "\neir = 0\nebs = 0\ncf = false\naware = false\ndrop_yellow = false\nall_red = false\n",
    );
}

fn put_filter(text: &mut Text, random: &mut Random, number: u64) {
    text.with("\n[[filter]]\nid = ", number);
    text.with("\nhandle = ", number);
    text.with("\npriority = ", random.below(8));
    text.with("\ngate = ", number);
    text.with("\nmeter = ", number);
    text.put("\nmax_sdu = 1500\noversize = false\n");
}

/// The setup of a plan: 64 ports with lists, and so many streams, a gate, a meter and a filter each.
pub fn plan_setup(alloc: Global, random: &mut Random, streams: u64) -> Text {
    let mut text = Text::new(alloc);
    put_limits(&mut text, 64, [65_536; 3], 4096);
    for number in 1..65 {
        put_port(&mut text, random, number, 64);
    }
    for number in 0..streams {
        put_filter(&mut text, random, number);
    }
    for number in 0..streams {
        put_gate(&mut text, random, number);
    }
    for number in 0..streams {
        put_meter(&mut text, random, number);
    }
    text
}

/// A setup of limits alone.
pub fn limits_setup(alloc: Global, ports: u64, instances: u64, entries: u64) -> Text {
    let mut text = Text::new(alloc);
    put_limits(&mut text, ports, [instances; 3], entries);
    text
}

/// A setup of one port, number 1, with a list of so many entries.
pub fn port_setup(alloc: Global, random: &mut Random, entries: u64) -> Text {
    let mut text = limits_setup(alloc, 2, 16, 4096);
    put_port(&mut text, random, 1, entries);
    text
}
