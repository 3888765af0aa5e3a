//! What the definitions of this crate say of worked examples, so that a definition and a body that are wrong alike
//! are found out. Each function does nothing; its contract is what is proved.
ghost use Rattle.std.specs.Prelude.{◌≡◌, ◌++◌, [], ◌∷◌, Some, Ok, Err, codes};
ghost use Rattle.toml.specs.Data.{table, member, no_members};
ghost use Rattle.tsn_types.specs.declared.keys.Key.TheVariants as keys;
ghost use Rattle.tsn_types.specs.declared.records.Record.TheVariants as records;
ghost use Rattle.tsn_types.specs.declared.refusals.Field.TheVariants as fields;
ghost use Rattle.tsn_types.specs.declared.refusals.Refusal.TheVariants as refusals;
ghost use Rattle.tsn_types.specs.Examples.{a_port, a_filter, a_gate, a_meter};
ghost use Rattle.tsn_setup.specs.Examples.{port_table, filter_table, gate_table, meter_table, sets_up};
ghost use Rattle.tsn_setup.specs.Setups.{document_of, setup_of};
ghost use Rattle.tsn_setup.specs.Values.{AcceptsValues, keyed_rows, tables_of};

/// Documents that are read. The empty one says what `Setup::standard` does. Records come in the order of their kinds,
/// whatever their order in the file.
#[tactic(auto, unfolding(crate::proofs::OnLiterals::setups_on_literals))]
pub fn documents_are_read()
    ensures empty { setup_of [] ≡ sets_up [] }
    ensures limits { setup_of (codes "ports = 7\nmax_filters = 1\nmax_gates = 2\nmax_meters = 3\nlist_max = 4")
        ≡ Ok (record { limits = record { ports = 7; filters = 1; gates = 2; meters = 3; list = 4 }; records = [] }) }
    ensures no_tables { setup_of (codes "port = []") ≡ sets_up [] }
    ensures port { setup_of port_table ≡ sets_up ((keys.Port 1, records.Port a_port) ∷ []) }
    ensures filter { setup_of filter_table ≡ sets_up ((keys.Filter 3, records.Filter a_filter) ∷ []) }
    ensures gate { setup_of gate_table ≡ sets_up ((keys.Gate 0, records.Gate a_gate) ∷ []) }
    ensures meter { setup_of meter_table ≡ sets_up ((keys.Meter 0, records.Meter a_meter) ∷ []) }
    ensures order { setup_of (meter_table ++ filter_table)
        ≡ sets_up ((keys.Filter 3, records.Filter a_filter) ∷ (keys.Meter 0, records.Meter a_meter) ∷ []) }
{}

/// Documents that are refused, by syntax, by shape or by the first number that is out of its range.
#[tactic(auto, unfolding(crate::proofs::OnLiterals::setups_on_literals))]
pub fn documents_are_refused()
    ensures no_text { setup_of (255 ∷ []) ≡ Err refusals.Syntax }
    ensures half { setup_of (codes "ports =") ≡ Err refusals.Syntax }
    ensures wide { setup_of (codes "ports = 9223372036854775808") ≡ Err refusals.Syntax }
    ensures unknown { setup_of (codes "ports = 2\nport_count = 2") ≡ Err refusals.Shape }
    ensures negative { setup_of (codes "ports = -2") ≡ Err refusals.Shape }
    ensures float { setup_of (codes "ports = 2.0") ≡ Err refusals.Shape }
    ensures date { setup_of (codes "ports = 1979-05-27") ≡ Err refusals.Shape }
    ensures one_table { setup_of (codes "[port]\nid = 1") ≡ Err refusals.Shape }
    ensures none_given { setup_of (codes "[[port]]\nid = 1") ≡ Err refusals.Shape }
    ensures shape_first { setup_of (codes "ports = 0\n[[port]]\nid = 0") ≡ Err refusals.Shape }
    ensures limits_in_order { setup_of (codes "list_max = 0\nmax_gates = 0") ≡ Err (refusals.Range fields.MaxGates) }
    ensures limits_first { setup_of (codes "list_max = 4097\n[[filter]]\nid = 65536\ngate = 0\noversize = true")
        ≡ Err (refusals.Range fields.ListMax) }
    ensures id_first { setup_of (codes "[[filter]]\ngate = 65536\nid = 65536\noversize = true")
        ≡ Err (refusals.Range fields.Id) }
{}

/// A text is accepted as a setup exactly where it is a document of it: each record is a table with just its members, by
/// name and in whatever order they stand in the text, and a limit is left out only where it is the standard one.
#[tactic(auto, unfolding(crate::proofs::OnLiterals::setups_on_literals))]
pub fn documents_are_values()
    ensures law { AcceptsValues }
    ensures order { document_of filter_table ≡ Some (table (member (codes "filter")
        (tables_of keyed_rows ((keys.Filter 3, records.Filter a_filter) ∷ [])) no_members)) }
{}
