//! The way of one frame through the filter chain: its stream filter, its stream gate, its flow meter (802.1Q-2018,
//! 8.6.5).
ghost use Rattle.std.specs.Prelude.{◌≡◌, ◌++◌, ◌+◌, false, List};
ghost use Rattle.tsn_chain.specs.declared.data.Met.{Met as AnyMet};
ghost use Rattle.tsn_chain.specs.declared.frame.Verdict.{Verdict as AnyVerdict};
ghost use Rattle.tsn_chain.specs.Chain.{Row, colour_in, gate_steps, is_above, is_latched, is_over, meter_steps, pass, through, unmatched, used_by, used_in, walk};
ghost use Rattle.tsn_chain.specs.Passing.{case_of, gone_on, verdict_of};

use crate::data::{GateData, GateState, Met, Metered, Running};
use crate::frame::{DropCause, Frame, Verdict};
use tsn_meter::bucket::Colour;
use tsn_types::numbers::{FilterId, Instant, MaxSdu, Octets};
use tsn_types::records::{StreamFilter, StreamGate};

/// A frame on its way: its chosen filter, the gate that this names, the gate's state, and the instant.
#[derive(Clone, Copy, Debug)]
pub struct Passage<'a> {
    pub id: FilterId,
    pub filter: &'a StreamFilter,
    pub gate: &'a StreamGate,
    pub state: GateState,
    pub frame: Frame,
    pub time: Instant,
}

/// The verdict on a frame that no filter matches.
pub(crate) fn pass_unmatched(frame: Frame, time: Instant) -> Verdict
    ensures { result ≡ unmatched frame time }
{
    Verdict::Passed {
        filter: None,
        now: time,
        priority: frame.priority,
        yellow: frame.yellow,
    }
}

// Whether a frame is longer than the filter lets through.
fn is_oversize(octets: Octets, most: Option<MaxSdu>) -> bool
    ensures { result ≡ is_above octets most }
{
    match most {
        Some(most) => octets.get() > most.get(),
        None => false,
    }
}

// The octets used so far in an interval.
fn used_in_interval(gate: &GateData, interval: &Running) -> u64
    ensures { result ≡ used_in gate.now interval.now }
{
    match gate.began {
        Some(known) if known == interval.began => gate.used,
        _ => 0,
    }
}

// Whether a frame has more octets than the interval has left.
fn is_over_octets(gate: &GateData, octets: Octets, running: Option<Running>) -> bool
    ensures { result ≡ is_over gate.now octets running }
{
    match running {
        Some(interval) => match interval.octets {
            Some(most) => {
                used_in_interval(gate, &interval).saturating_add(octets.get()) > most.get()
            }
            None => false,
        },
        None => false,
    }
}

// Counts the octets of a frame where a list is in force.
fn use_octets(met: &mut Met, octets: Octets, running: Option<Running>)
    ensures { met.new ≡ used_by octets running met.old }
{
    if let Some(interval) = running {
        met.gate.used = used_in_interval(&met.gate, &interval).saturating_add(octets.get());
        met.gate.began = Some(interval.began);
    }
}

// Whether a latch holds the gate closed.
fn is_held_closed(gate: &StreamGate, kept: &GateData) -> bool
    ensures { result ≡ is_latched gate.now kept.now }
{
    kept.invalid_rx && gate.invalid_rx || kept.octets_exceeded && gate.octets_exceeded
}

// The colour that the meter is told.
fn colour_told(frame: Frame) -> Colour
    ensures { result ≡ colour_in frame }
{
    if frame.yellow {
        Colour::Yellow
    } else {
        Colour::Green
    }
}

// The filter and its gate: why the frame is dropped, if it is.
fn through_gate(passage: &Passage<'_>, met: &mut Met) -> Result<(), DropCause>
    ensures steps { let x = case_of passage.now met.old in
        (rest : List Row) (last : AnyVerdict) → walk (gate_steps x ++ rest) last met.old ≡ gone_on x result met.new rest last }
    ensures meter { met.new.meter ≡ met.old.meter }
{
    let Passage {
        filter,
        gate,
        state,
        frame,
        ..
    } = *passage;
    let before = *met;
    met.filter.matching = met.filter.matching.saturating_add(1);
    if filter.oversize && before.filter.blocked {
        return Err(DropCause::Blocked);
    }
    if is_oversize(frame.octets, filter.max_sdu) {
        met.filter.not_passing_sdu = met.filter.not_passing_sdu.saturating_add(1);
        met.filter.blocked |= filter.oversize;
        return Err(DropCause::Oversize);
    }
    met.filter.passing_sdu = met.filter.passing_sdu.saturating_add(1);
    if is_held_closed(gate, &before.gate) {
        met.filter.not_passing = met.filter.not_passing.saturating_add(1);
        return Err(DropCause::Closed);
    }
    if !state.is_open {
        met.filter.not_passing = met.filter.not_passing.saturating_add(1);
        met.gate.invalid_rx |= gate.invalid_rx;
        return Err(DropCause::Closed);
    }
    if is_over_octets(&before.gate, frame.octets, state.running) {
        met.filter.not_passing = met.filter.not_passing.saturating_add(1);
        met.gate.octets_exceeded |= gate.octets_exceeded;
        return Err(DropCause::Octets);
    }
    use_octets(met, frame.octets, state.running);
    met.filter.passing = met.filter.passing.saturating_add(1);
    Ok(())
}

// The meter, if the filter names one: why the frame is dropped, or whether it is marked yellow.
fn through_meter(passage: &Passage<'_>, met: &mut Met) -> Result<bool, DropCause>
    ensures { (before : AnyMet) → let x = case_of passage.now before in
        walk (meter_steps x met.old.meter) (pass x false) met.old ≡ (verdict_of x result, met.new) }
{
    let before = met.meter;
    let Some(Metered { by, mut kept }) = before else {
        return Ok(false);
    };
    if by.all_red && kept.red {
        met.filter.red = met.filter.red.saturating_add(1);
        return Err(DropCause::Red);
    }
    let Passage { frame, time, .. } = *passage;
    let colour = kept
        .bucket
        .mark(&by, time, frame.octets, colour_told(frame));
    if colour == Colour::Red {
        kept.red |= by.all_red;
    }
    met.meter = Some(Metered { by, kept });
    match colour {
        Colour::Red => {
            met.filter.red = met.filter.red.saturating_add(1);
            Err(DropCause::Red)
        }
        Colour::Yellow if by.drop_yellow => {
            met.filter.red = met.filter.red.saturating_add(1);
            Err(DropCause::Yellow)
        }
        Colour::Yellow => Ok(true),
        Colour::Green => Ok(false),
    }
}

/// The verdict on a frame whose filter is chosen. What is kept of the instances that it meets is left as the chain
/// leaves it.
pub fn pass_through(passage: &Passage<'_>, met: &mut Met) -> Verdict
    ensures { (result, met.new) ≡ through (case_of passage.now met.old) }
{
    let passed = match through_gate(passage, met) {
        Ok(()) => through_meter(passage, met),
        Err(cause) => Err(cause),
    };
    match passed {
        Ok(yellow) => Verdict::Passed {
            filter: Some(passage.id),
            now: passage.time,
            priority: passage.state.ipv.unwrap_or(passage.frame.priority),
            yellow: passage.frame.yellow || yellow,
        },
        Err(cause) => Verdict::Dropped {
            filter: passage.id,
            now: passage.time,
            cause,
        },
    }
}
