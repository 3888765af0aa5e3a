//! What the definitions of this crate say of worked examples, so that a definition and a body that are wrong alike
//! are found out. Each function does nothing; its contract is what is proved.
ghost use Rattle.std.specs.Prelude.{◌≡◌, [], ◌∷◌, ◌++◌, Some, None, Ok, Err, codes};
ghost use Rattle.tsn_commands.specs.declared.command.Command.TheVariants as commands;
ghost use Rattle.tsn_edit.specs.declared.Edit.TheVariants as edits;
ghost use Rattle.tsn_types.specs.declared.keys.Key.TheVariants as keys;
ghost use Rattle.tsn_types.specs.declared.records.Record.TheVariants as records;
ghost use Rattle.tsn_types.specs.declared.refusals.Field.TheVariants as fields;
ghost use Rattle.tsn_types.specs.declared.refusals.Refusal.TheVariants as refusals;
ghost use Rattle.tsn_types.specs.Examples.{a_port, a_filter, a_gate, a_meter};
ghost use Rattle.tsn_records.specs.Examples.{port_text, filter_text, gate_text, meter_text};
ghost use Rattle.tsn_wire.specs.Examples.{a_frame, batch_line, batched, create_line, created, creation_text, frame_line, no_cycle_text, no_flag_text, removal_text, seventeen_removals};
ghost use Rattle.tsn_wire.specs.Reading.{data_of, line_of};
ghost use Rattle.tsn_wire.specs.ReadingBack.{ReadsBack};
ghost use Rattle.tsn_wire.specs.Values.{AcceptsValues, value_of};

/// Lines that are read, and lines that are not.
#[tactic(auto, unfolding(crate::proofs::OnLiterals::lines_on_literals))]
pub fn lines_are_read()
    ensures hello { line_of (codes "{\"do\":\"hello\"}") ≡ Ok (record { session = 0; command = commands.Hello None }) }
    ensures name { line_of (codes "{\"do\":\"hello\",\"name\":\"planner anna\"}")
        ≡ Ok (record { session = 0; command = commands.Hello (Some (codes "planner anna")) }) }
    ensures escaped_name { line_of (codes "{\"name\":\"a\\u006ena \\\"n\\\"\",\"do\":\"hello\"}")
        ≡ Ok (record { session = 0; command = commands.Hello (Some (codes "anna \"n\"")) }) }
    ensures no_name { line_of (codes "{\"do\":\"hello\",\"name\":\"\"}") ≡ Err (refusals.Range fields.Name) }
    ensures bell { line_of (codes "{\"do\":\"hello\",\"name\":\"a\\u0007\"}") ≡ Err (refusals.Range fields.Name) }
    ensures null_name { line_of (codes "{\"do\":\"hello\",\"name\":null}") ≡ Err refusals.Shape }
    ensures hello_of_a_session { line_of (codes "{\"do\":\"hello\",\"s\":1}") ≡ Err refusals.Shape }
    ensures undo { line_of (codes "{\"do\":\"undo\",\"s\":1}") ≡ Ok (record { session = 1; command = commands.Undo }) }
    ensures undo_all { line_of (codes "{\"do\":\"undo_all\",\"s\":1}")
        ≡ Ok (record { session = 1; command = commands.UndoAll }) }
    ensures redo { line_of (codes "{\"do\":\"redo\",\"s\":1}") ≡ Ok (record { session = 1; command = commands.Redo }) }
    ensures since { line_of (codes "{\"after\":3,\"do\":\"since\",\"s\":1}")
        ≡ Ok (record { session = 1; command = commands.Since 3 }) }
    ensures resume { line_of (codes "{\"do\":\"resume\",\"s\":2}")
        ≡ Ok (record { session = 2; command = commands.Resume }) }
    ensures sessions { line_of (codes "{\"do\":\"sessions\",\"s\":1}")
        ≡ Ok (record { session = 1; command = commands.Sessions }) }
    ensures setup { line_of (codes "{\"do\":\"setup\",\"s\":1}")
        ≡ Ok (record { session = 1; command = commands.Setup }) }
    ensures settle { line_of (codes "{\"do\":\"settle\",\"s\":1,\"upto\":3}")
        ≡ Ok (record { session = 1; command = commands.Settle 3 }) }
    ensures after { line_of (codes "{\"after\":4294967296,\"do\":\"since\",\"s\":1}")
        ≡ Err (refusals.Range fields.After) }
    ensures enable { line_of (codes "{\"do\":\"enable\",\"key\":\"gate 0\",\"now\":7,\"s\":1}")
        ≡ Ok (record { session = 1; command = commands.Enable (keys.Gate 0) 7 }) }
    ensures disable { line_of (codes "{\"do\":\"disable\",\"key\":\"port 64\",\"now\":0,\"s\":1}")
        ≡ Ok (record { session = 1; command = commands.Disable (keys.Port 64) 0 }) }
    ensures apply { line_of (codes "{\"do\":\"apply\",\"key\":\"port 1\",\"now\":8,\"s\":1}")
        ≡ Ok (record { session = 1; command = commands.Apply (keys.Port 1) 8 }) }
    ensures states { line_of (codes "{\"at\":9,\"do\":\"states\",\"key\":\"gate 3\",\"s\":1}")
        ≡ Ok (record { session = 1; command = commands.States (keys.Gate 3) 9 }) }
    ensures counters { line_of (codes "{\"do\":\"counters\",\"key\":\"meter 5\",\"s\":1}")
        ≡ Ok (record { session = 1; command = commands.Counters (keys.Meter 5) }) }
    ensures frame { line_of (frame_line (codes "1500") (codes "5") (codes "true"))
        ≡ Ok (record { session = 1; command = commands.Frame a_frame 1000 }) }
    ensures long_frame { line_of (frame_line (codes "65536") (codes "5") (codes "true"))
        ≡ Err (refusals.Range fields.Octets) }
    ensures frame_order { line_of (frame_line (codes "65536") (codes "8") (codes "true"))
        ≡ Err (refusals.Range fields.Priority) }
    ensures no_flag { line_of (frame_line (codes "65536") (codes "8") (codes "1")) ≡ Err refusals.Shape }
    ensures no_list { line_of (codes "{\"do\":\"enable\",\"key\":\"filter 0\",\"now\":7,\"s\":1}")
        ≡ Err refusals.Shape }
    ensures at_for_now { line_of (codes "{\"at\":7,\"do\":\"enable\",\"key\":\"gate 0\",\"s\":1}")
        ≡ Err refusals.Shape }
    ensures far { line_of (codes "{\"do\":\"apply\",\"key\":\"gate 0\",\"now\":4611686018427387905,\"s\":1}")
        ≡ Err (refusals.Range fields.Now) }
    ensures far_look { line_of (codes "{\"at\":4611686018427387905,\"do\":\"states\",\"key\":\"gate 0\",\"s\":1}")
        ≡ Err (refusals.Range fields.At) }
    ensures key_order { line_of (codes "{\"at\":4611686018427387905,\"do\":\"states\",\"key\":\"gate 65536\",\"s\":1}")
        ≡ Err (refusals.Range fields.Key) }
    ensures fraction { line_of (codes "{\"do\":\"undo\",\"s\":1.0}") ≡ Err refusals.Shape }
    ensures sign { line_of (codes "{\"do\":\"undo\",\"s\":-1}") ≡ Err refusals.Shape }
    ensures session { line_of (codes "{\"do\":\"undo\",\"s\":70000}") ≡ Err (refusals.Range fields.S) }
    ensures digits { line_of (codes "{\"do\":\"remove\",\"key\":\"gate 00\",\"s\":1}") ≡ Err refusals.Shape }
    ensures key { line_of (codes "{\"do\":\"remove\",\"key\":\"gate 4294967296\",\"s\":1}")
        ≡ Err (refusals.Range fields.Key) }
    ensures array { line_of (codes "[1]") ≡ Err refusals.Shape }
    ensures no_text { line_of (255 ∷ []) ≡ Err refusals.Syntax }
    ensures half { line_of (codes "{\"do\":\"undo\"") ≡ Err refusals.Syntax }
{}

/// Records that are read, and the order in which their faults are found: a shape anywhere before a range anywhere, the
/// key before the record.
#[tactic(auto, unfolding(crate::proofs::OnLiterals::lines_on_literals))]
pub fn records_are_read()
    ensures port { line_of (create_line (codes "port 1") port_text) ≡ created (keys.Port 1) (records.Port a_port) }
    ensures filter { line_of (create_line (codes "filter 3") filter_text)
        ≡ created (keys.Filter 3) (records.Filter a_filter) }
    ensures gate { line_of (create_line (codes "gate 0") gate_text) ≡ created (keys.Gate 0) (records.Gate a_gate) }
    ensures meter { line_of (create_line (codes "meter 0") meter_text)
        ≡ created (keys.Meter 0) (records.Meter a_meter) }
    ensures cycle { line_of (create_line (codes "gate 0") no_cycle_text) ≡ Err (refusals.Range fields.Cycle) }
    ensures order { line_of (create_line (codes "gate 70000") no_cycle_text) ≡ Err (refusals.Range fields.Key) }
    ensures shape { line_of (create_line (codes "gate 70000") no_flag_text) ≡ Err refusals.Shape }
    ensures kind { line_of (create_line (codes "gate 0") filter_text) ≡ Err refusals.Shape }
{}

/// Batches that are read, and the order in which their faults are found: a key that stands twice before a number out of
/// its range, also where it is that key's own, and then the edits in their order.
#[tactic(auto, unfolding(crate::proofs::OnLiterals::lines_on_literals))]
pub fn batches_are_read()
    ensures batch { line_of (batch_line
        (creation_text (codes "meter 0") meter_text ++ codes "," ++ removal_text (codes "gate 0")))
        ≡ batched (edits.Create (keys.Meter 0) (records.Meter a_meter) ∷ edits.Remove (keys.Gate 0) ∷ []) }
    ensures one { line_of (batch_line (removal_text (codes "gate 0"))) ≡ batched (edits.Remove (keys.Gate 0) ∷ []) }
    ensures none { line_of (batch_line []) ≡ Err refusals.Shape }
    ensures too_many { line_of (batch_line seventeen_removals) ≡ Err refusals.Shape }
    ensures twice { line_of (batch_line
        (creation_text (codes "gate 70000") no_cycle_text ++ codes "," ++ removal_text (codes "gate 70000")))
        ≡ Err refusals.Shape }
    ensures order { line_of (batch_line
        (creation_text (codes "gate 0") no_cycle_text ++ codes "," ++ removal_text (codes "gate 70000")))
        ≡ Err (refusals.Range fields.Cycle) }
    ensures key { line_of (batch_line
        (removal_text (codes "gate 70000") ++ codes "," ++ creation_text (codes "gate 0") no_cycle_text))
        ≡ Err (refusals.Range fields.Key) }
    ensures port { line_of (batch_line (removal_text (codes "port 1"))) ≡ Err refusals.Shape }
    ensures no_session { line_of (codes "{\"do\":\"batch\",\"edits\":[{\"do\":\"remove\",\"key\":\"gate 0\",\"s\":1}],\"s\":1}")
        ≡ Err refusals.Shape }
{}

/// A line is accepted as a command of a session exactly where it is the value of that command: the members by name,
/// whatever their order in the line, and the record as it is shown.
#[tactic(auto, unfolding(crate::proofs::OnLiterals::lines_on_literals))]
pub fn lines_are_values()
    ensures law { AcceptsValues }
    ensures order { data_of (codes "{\"s\":1,\"do\":\"undo\"}") ≡ Some (value_of 1 commands.Undo) }
{}

/// What is shown of a key and a record, put into a line that creates it, reads back as the same key and record.
pub fn shown_reads_back()
    ensures { ReadsBack }
{}
