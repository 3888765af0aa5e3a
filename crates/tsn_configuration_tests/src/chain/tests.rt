//! Worked examples as calls of a runtime. `examples/tables/frames-*.txt` have what a script shows of frames.

mod bench;
mod greatest;

use crate::comparing::same;
use bench::{
    Bench, counts, dropped, filter, gate_id, listed_gate, on_a_gated_bench, passed, passes,
};
use std::process::Abort;
use std::test::Fail;
use tsn_chain::frame::DropCause;
use tsn_chain::state::{Counters, ListCounters};
use tsn_types::keys::Key;

/// Starts the list of gate 0, which is in force from instant 0 on: of its 150 octets 100 are used, and 60 more are too
/// many.
fn start(rt: &impl Abort, bench: &mut Bench) {
    same(rt, &bench.enable_gate(gate_id(0), 0), &Some(None));
    same(rt, &bench.apply_gate(gate_id(0), 0), &Some(0));
    passes(rt, bench, 100, 10, passed(0, 10, 5, false));
    passes(rt, bench, 60, 20, dropped(0, 20, DropCause::Octets));
}

/// The latch of octets holds the gate closed where its enable is on; where it is off, what fits passes.
#[test]
fn gate_octets(rt: HostRuntime) -> Result<(), Fail> {
    let latching = listed_gate(rt.alloc(), true)?;
    on_a_gated_bench(latching, filter(), rt.alloc(), |bench| {
        start(&rt, bench);
        passes(&rt, bench, 10, 2010, dropped(0, 2010, DropCause::Closed));
        let wanted = Counters::Gate {
            list: ListCounters {
                change_error: 0,
                change_time: Some(0),
                enabled: true,
                pending: false,
            },
            invalid_rx: false,
            octets_exceeded: true,
        };
        counts(&rt, bench, Key::Gate(gate_id(0)), wanted);
        Ok(())
    })?;
    let other = listed_gate(rt.alloc(), false)?;
    on_a_gated_bench(other, filter(), rt.alloc(), |bench| {
        start(&rt, bench);
        passes(&rt, bench, 50, 30, passed(0, 30, 5, false));
        passes(&rt, bench, 10, 1500, dropped(0, 1500, DropCause::Closed));
        passes(&rt, bench, 100, 2010, passed(0, 2010, 5, false));
        Ok(())
    })
}
