//! Laws of exported setups, each a function whose contract is the law and whose body is empty.
//!
//! They are about the definitions alone. Nothing calls them as the program runs.
ghost use Rattle.std.specs.Prelude.{◌≡◌, ◌++◌, [], None};
ghost use Rattle.std.specs.List.{AllByRecursion};
ghost use Rattle.tsn_types.specs.InRange.{KeyedInRange};
ghost use Rattle.tsn_types.specs.declared.keys.Key.TheVariants.{Port, Filter, Gate, Meter};
ghost use Rattle.tsn_types.specs.declared.keys.Kind.TheVariants as kinds;
ghost use Rattle.tsn_types.specs.declared.limits.Limits.{Limits};
ghost use Rattle.tsn_edit.specs.Configuration.{Configuration, IsWellKept};
ghost use Rattle.tsn_config.specs.Opening.{AreOfKind, RecordsInRange, opening, opening_refusal};
ghost use Rattle.tsn_export.specs.Examples as examples;
ghost use Rattle.tsn_export.specs.Examples.{configuration, empty_gate, empty_gate_lines, filter_lines, full_filter, full_filter_lines, gate_lines, limits, limits_lines, meter_lines, port_lines};
ghost use Rattle.tsn_export.specs.Going.{of_kind};
ghost use Rattle.tsn_export.specs.Text.{named, setup_text, table_text};

/// What is opened from the records that a setup names is the configuration that it was made of, and nothing of them is
/// refused.
#[tactic(auto, using(crate::proofs::Opens::opens, crate::proofs::Opens::unrefused))]
pub fn exports_open()
    ensures opens { (l : Limits) (c : Configuration) → IsWellKept l c → opening l (named c) ≡ c }
    ensures unrefused { (l : Limits) (c : Configuration) → IsWellKept l c → opening_refusal l (named c) ≡ None }
{}

/// The records that a setup names are of their keys' kinds, every number in its range, and stand kind by kind.
pub fn named_in_order()
    ensures kinds { (l : Limits) (c : Configuration) → IsWellKept l c → AreOfKind (named c) }
    ensures ranges { (l : Limits) (c : Configuration) → IsWellKept l c → RecordsInRange (named c) }
    ensures keyed { (l : Limits) (c : Configuration) → IsWellKept l c →
        AllByRecursion (λ e. KeyedInRange e.0 e.1) (named c) }
    ensures order { (c : Configuration) →
        named c ≡ of_kind kinds.Port (named c) ++ of_kind kinds.Filter (named c)
        ++ of_kind kinds.Gate (named c) ++ of_kind kinds.Meter (named c) }
{}

/// Worked examples, each with its text written out: a table of each kind, members that are null and none, a list with
/// entries and none; a whole setup, which leaves out a port that is as one that no setup names; and that of a bridge of
/// which nothing was said.
pub fn setups_are_written()
    ensures port { table_text (Port 1, examples.port) ≡ port_lines }
    ensures filter { table_text (Filter 3, examples.filter) ≡ filter_lines }
    ensures full_filter { table_text (Filter 65535, full_filter) ≡ full_filter_lines }
    ensures gate { table_text (Gate 0, examples.gate) ≡ gate_lines }
    ensures empty_gate { table_text (Gate 1, empty_gate) ≡ empty_gate_lines }
    ensures meter { table_text (Meter 0, examples.meter) ≡ meter_lines }
    ensures whole { setup_text limits configuration
        ≡ limits_lines ++ port_lines ++ filter_lines ++ gate_lines ++ meter_lines }
    ensures standard { setup_text limits (opening limits []) ≡ limits_lines }
{}
