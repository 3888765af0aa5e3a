//! The lines of what a running bridge answers: to an act on a gate list, to a frame, and what its states and counters
//! are. None of it takes memory.
ghost use Rattle.std.specs.Prelude.{◌≡◌, ◌+◌, ◌≤◌, ◌++◌, [], length, codes};
ghost use Rattle.serde_json.specs.Data.{string};
ghost use Rattle.serde_json.specs.Written.{compact_text};
ghost use Rattle.tsn_chain.specs.declared.state.Counters.TheVariants as counters;
ghost use Rattle.tsn_chain.specs.declared.state.State.TheVariants as states;
ghost use Rattle.tsn_replies.specs.Running.{act_data, cause_name, pass_data, drop_data, verdict_data, state_data, port_counters_data, filter_counters_data, gate_counters_data, counters_data};

use tsn_chain::data::FilterData;
use tsn_chain::frame::{DropCause, Verdict};
use tsn_chain::state::{Counters, ListCounters, State};
use tsn_encoding::{ShortText, plain_priority, push_flag, push_number, push_or_null};
use tsn_types::numbers::{FilterId, Instant, Priority};

/// Puts the line of an act into an empty text.
#[tactic(auto, unfolding(json::specs::Print::escape_byte))]
pub fn push_act(text: &mut ShortText, change: Option<u64>, entry: u64, now: Instant)
    requires { text.old ≡ [] }
    ensures { text.new ≡ compact_text (act_data change entry now) ++ codes "\n" }
{
    push_or_null(text, "{\"change\":", change);
    push_number(text, ",\"entry\":", entry);
    push_number(text, ",\"now\":", now.get());
    text.push("}\n");
}

// ---- frames

fn plain_filter_id(number: Option<FilterId>) -> Option<u64>
    ensures { result ≡ number }
{
    number.map(FilterId::get)
}

#[tactic(auto, unfolding(json::specs::Print::escape_byte))]
fn cause_rest(cause: DropCause) -> &'static str
    ensures text { result.now
        ≡ codes ",\"verdict\":" ++ (compact_text (string (cause_name cause)) ++ codes "}\n") }
    ensures len { length result.now ≤ 24 }
{
    match cause {
        DropCause::Blocked => ",\"verdict\":\"blocked\"}\n",
        DropCause::Oversize => ",\"verdict\":\"oversize\"}\n",
        DropCause::Closed => ",\"verdict\":\"closed\"}\n",
        DropCause::Octets => ",\"verdict\":\"octets\"}\n",
        DropCause::Red => ",\"verdict\":\"red\"}\n",
        DropCause::Yellow => ",\"verdict\":\"yellow\"}\n",
    }
}

fn push_pass(
    text: &mut ShortText,
    filter: Option<FilterId>,
    now: Instant,
    priority: Priority,
    yellow: bool,
)
    requires { text.old ≡ [] }
    ensures { text.new ≡ compact_text (pass_data filter now priority yellow) ++ codes "\n" }
{
    push_or_null(text, "{\"filter\":", plain_filter_id(filter));
    push_number(text, ",\"now\":", now.get());
    push_number(text, ",\"priority\":", priority.get());
    push_flag(text, ",\"verdict\":\"pass\",\"yellow\":", yellow);
    text.push("}\n");
}

#[tactic(auto, using(crate::proofs::Lines::drop_line))]
fn push_drop(text: &mut ShortText, filter: FilterId, now: Instant, cause: DropCause)
    requires { text.old ≡ [] }
    ensures { text.new ≡ compact_text (drop_data filter now cause) ++ codes "\n" }
{
    push_number(text, "{\"filter\":", filter.get());
    push_number(text, ",\"now\":", now.get());
    text.push_copied(cause_rest(cause));
}

/// Puts the line of a verdict into an empty text.
pub fn push_verdict(text: &mut ShortText, verdict: &Verdict)
    requires { text.old ≡ [] }
    ensures { text.new ≡ compact_text (verdict_data verdict.now) ++ codes "\n" }
{
    match *verdict {
        Verdict::Passed {
            filter,
            now,
            priority,
            yellow,
        } => push_pass(text, filter, now, priority, yellow),
        Verdict::Dropped { filter, now, cause } => push_drop(text, filter, now, cause),
    }
}

// ---- states

#[tactic(auto, unfolding(json::specs::Print::escape_byte))]
fn push_port_state(text: &mut ShortText, gates: u8)
    requires { text.old ≡ [] }
    ensures { text.new ≡ compact_text (state_data (states.Port gates)) ++ codes "\n" }
{
    push_number(text, "{\"gates\":", u64::from(gates));
    text.push("}\n");
}

#[tactic(auto, unfolding(json::specs::Print::escape_byte))]
fn push_gate_state(text: &mut ShortText, is_open: bool, ipv: Option<Priority>)
    requires { text.old ≡ [] }
    ensures { text.new ≡ compact_text (state_data (states.Gate is_open ipv)) ++ codes "\n" }
{
    push_or_null(text, "{\"ipv\":", plain_priority(ipv));
    push_flag(text, ",\"open\":", is_open);
    text.push("}\n");
}

/// Puts the line of a state into an empty text.
pub fn push_state(text: &mut ShortText, state: &State)
    requires { text.old ≡ [] }
    ensures { text.new ≡ compact_text (state_data state.now) ++ codes "\n" }
{
    match *state {
        State::Port { gates } => push_port_state(text, gates),
        State::Gate { is_open, ipv } => push_gate_state(text, is_open, ipv),
    }
}

// ---- counters

fn push_port_counters(text: &mut ShortText, list: &ListCounters)
    requires { text.old ≡ [] }
    ensures { text.new ≡ compact_text (port_counters_data list.now) ++ codes "\n" }
{
    push_number(text, "{\"change_error\":", list.change_error);
    push_or_null(text, ",\"change_time\":", list.change_time);
    push_flag(text, ",\"enabled\":", list.enabled);
    push_flag(text, ",\"pending\":", list.pending);
    text.push("}\n");
}

fn push_filter_counters(text: &mut ShortText, filter: &FilterData)
    requires { text.old ≡ [] }
    ensures { text.new ≡ compact_text (filter_counters_data filter.now) ++ codes "\n" }
{
    push_flag(text, "{\"blocked\":", filter.blocked);
    push_number(text, ",\"matching\":", filter.matching);
    push_number(text, ",\"not_passing\":", filter.not_passing);
    push_number(text, ",\"not_passing_sdu\":", filter.not_passing_sdu);
    push_number(text, ",\"passing\":", filter.passing);
    push_number(text, ",\"passing_sdu\":", filter.passing_sdu);
    push_number(text, ",\"red\":", filter.red);
    text.push("}\n");
}

fn push_gate_counters(
    text: &mut ShortText,
    list: &ListCounters,
    invalid_rx: bool,
    octets_exceeded: bool,
)
    requires { text.old ≡ [] }
    ensures { text.new
        ≡ compact_text (gate_counters_data list.now invalid_rx octets_exceeded) ++ codes "\n" }
{
    push_number(text, "{\"change_error\":", list.change_error);
    push_or_null(text, ",\"change_time\":", list.change_time);
    push_flag(text, ",\"enabled\":", list.enabled);
    push_flag(text, ",\"invalid_rx\":", invalid_rx);
    push_flag(text, ",\"octets_exceeded\":", octets_exceeded);
    push_flag(text, ",\"pending\":", list.pending);
    text.push("}\n");
}

#[tactic(auto, unfolding(json::specs::Print::escape_byte))]
fn push_meter_counters(text: &mut ShortText, all_red: bool)
    requires { text.old ≡ [] }
    ensures { text.new ≡ compact_text (counters_data (counters.Meter all_red)) ++ codes "\n" }
{
    push_flag(text, "{\"all_red\":", all_red);
    text.push("}\n");
}

/// Puts the line of an instance's counters into an empty text.
pub fn push_counters(text: &mut ShortText, counters: &Counters)
    requires { text.old ≡ [] }
    ensures { text.new ≡ compact_text (counters_data counters.now) ++ codes "\n" }
{
    match counters {
        Counters::Port(list) => push_port_counters(text, list),
        Counters::Filter(filter) => push_filter_counters(text, filter),
        Counters::Gate {
            list,
            invalid_rx,
            octets_exceeded,
        } => push_gate_counters(text, list, *invalid_rx, *octets_exceeded),
        Counters::Meter { all_red } => push_meter_counters(text, *all_red),
    }
}
