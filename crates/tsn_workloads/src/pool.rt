//! Entries of gate control lists, made once, of which each list takes a window of its own.

use crate::numbers::Random;
use crate::text::Text;
use std::alloc::Global;

// How many entries a pool has.
const ENTRIES: u64 = 8192;

/// Entries behind one another, each with a comma behind it, and where each begins.
#[derive(Drop)]
pub struct Pool {
    text: Text,
    starts: Vec<usize>,
}

// An entry of a port's list: gates and an interval.
fn put_port_entry(text: &mut Text, random: &mut Random) {
    text.with("[", random.below(256));
    text.with(",", 500 + random.below(250_000));
    text.put("],");
}

// An entry of a stream gate's list: open, an internal priority value, an interval and a bound of octets.
fn put_gate_entry(text: &mut Text, random: &mut Random) {
    text.with_flag("[", random.below(3) != 0);
    let ipv = random.below(12);
    text.with_or_null(",", if ipv < 8 { Some(ipv) } else { None });
    text.with(",", 500 + random.below(250_000));
    let octets = random.below(30_000);
    text.with_or_null(",", if octets < 12_000 { Some(octets) } else { None });
    text.put("],");
}

impl Pool {
    /// Entries of ports' lists, or of stream gates'.
    pub fn new(alloc: Global, random: &mut Random, is_of_ports: bool) -> Pool {
        let mut text = Text::new(alloc);
        let mut starts = Vec::new(alloc);
        for _ in 0..ENTRIES {
            if starts.push(text.len()).is_err() {
                break;
            }
            if is_of_ports {
                put_port_entry(&mut text, random);
            } else {
                put_gate_entry(&mut text, random);
            }
        }
        Pool { text, starts }
    }

    // Where the entry of this number begins.
    fn start(&self, entry: u64) -> usize {
        self.starts.get(entry as usize).copied().unwrap_or(0)
    }

    /// So many entries behind one another, 1 to 4,096, from one by chance, with no comma behind the last one.
    pub fn entries(&self, random: &mut Random, count: u64) -> &[u8] {
        let first = random.below(ENTRIES / 2);
        let start = self.start(first);
        let end = self
            .start(first.saturating_add(count.min(ENTRIES / 2 - 1)))
            .saturating_sub(1);
        let all = self.text.as_slice();
        if start <= end && end <= all.len() {
            &all[start..end]
        } else {
            all
        }
    }
}
