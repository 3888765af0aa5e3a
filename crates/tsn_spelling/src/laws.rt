//! What is proved of the line of an ask. Each function does nothing; its contract is what is proved.
ghost use Rattle.std.specs.Prelude.{◌≡◌, ◌++◌, Some, None, codes};
ghost use Rattle.tsn_commands.specs.declared.command.Command.TheVariants as commands;
ghost use Rattle.tsn_types.specs.declared.keys.Key.TheVariants as keys;
ghost use Rattle.tsn_types.specs.declared.keys.Kind.TheVariants as kinds;
ghost use Rattle.tsn_types.specs.declared.records.Record.TheVariants as records;
ghost use Rattle.tsn_types.specs.Examples.{a_port, a_gate};
ghost use Rattle.tsn_records.specs.Examples.{port_text, filter_text, gate_text, meter_text};
ghost use Rattle.tsn_wire.specs.Examples.{a_frame, batch_line, create_line, creation_text, frame_line, removal_text};
ghost use Rattle.tsn_spelling.specs.Examples.{asked, replace_line, replacement_text, three_edits};
ghost use Rattle.tsn_spelling.specs.Laws.{ActsMayBeAsked, HasNoLineFeed, HelloMayBeAsked, IsAskedAgain, IsNoLonger, ReadsBack, WasAsked};
ghost use Rattle.tsn_spelling.specs.Line.{line_text};

/// The line of what may be asked asks for that.
pub fn reads_back()
    ensures { ReadsBack }
{}

/// No byte of a line is a line feed.
pub fn no_line_feed()
    ensures { HasNoLineFeed }
{}

/// What came from a line may be asked, so its own line asks for the same.
pub fn was_asked()
    ensures may { WasAsked }
    ensures again { IsAskedAgain }
{}

/// The line of what came from a line is no longer than that.
pub fn no_longer()
    ensures { IsNoLonger }
{}

/// A hello may be asked, of session 0, by a name or none, and an act that may be asked at one instant at each other
/// one.
pub fn others_may_be_asked()
    ensures hello { HelloMayBeAsked }
    ensures acts { ActsMayBeAsked }
{}

/// Lines of worked examples.
#[tactic(auto, unfolding(tsn_encoding::proofs::OnLiterals::replies_on_literals))]
pub fn asks_are_spelled()
    ensures hello { line_text (asked (commands.Hello None)) ≡ codes "{\"do\":\"hello\"}" }
    ensures name { line_text (asked (commands.Hello (Some (codes "anna \"n\"")))) ≡ codes "{\"do\":\"hello\",\"name\":\"anna \\\"n\\\"\"}" }
    ensures create { line_text (asked (commands.Create (keys.Gate 0) (records.Gate a_gate)))
        ≡ create_line (codes "gate 0") gate_text }
    ensures replace { line_text (asked (commands.Replace (keys.Port 1) (records.Port a_port)))
        ≡ replace_line (codes "port 1") port_text }
    ensures remove { line_text (asked (commands.Remove (keys.Meter 65535)))
        ≡ codes "{\"do\":\"remove\",\"key\":\"meter 65535\",\"s\":1}" }
    ensures batch { line_text (asked (commands.Batch three_edits))
        ≡ batch_line (creation_text (codes "meter 0") meter_text ++ codes "," ++ replacement_text (codes "filter 3") filter_text
        ++ codes "," ++ removal_text (codes "gate 0")) }
    ensures undo { line_text (asked commands.Undo) ≡ codes "{\"do\":\"undo\",\"s\":1}" }
    ensures undo_all { line_text (asked commands.UndoAll) ≡ codes "{\"do\":\"undo_all\",\"s\":1}" }
    ensures redo { line_text (asked commands.Redo) ≡ codes "{\"do\":\"redo\",\"s\":1}" }
    ensures settle { line_text (asked (commands.Settle 3)) ≡ codes "{\"do\":\"settle\",\"s\":1,\"upto\":3}" }
    ensures enable { line_text (asked (commands.Enable (keys.Gate 0) 7))
        ≡ codes "{\"do\":\"enable\",\"key\":\"gate 0\",\"now\":7,\"s\":1}" }
    ensures disable { line_text (asked (commands.Disable (keys.Port 64) 0))
        ≡ codes "{\"do\":\"disable\",\"key\":\"port 64\",\"now\":0,\"s\":1}" }
    ensures apply { line_text (asked (commands.Apply (keys.Port 1) 8))
        ≡ codes "{\"do\":\"apply\",\"key\":\"port 1\",\"now\":8,\"s\":1}" }
    ensures frame { line_text (asked (commands.Frame a_frame 1000))
        ≡ frame_line (codes "1500") (codes "5") (codes "true") }
    ensures states { line_text (asked (commands.States (keys.Gate 3) 9))
        ≡ codes "{\"at\":9,\"do\":\"states\",\"key\":\"gate 3\",\"s\":1}" }
    ensures counters { line_text (asked (commands.Counters (keys.Filter 5)))
        ≡ codes "{\"do\":\"counters\",\"key\":\"filter 5\",\"s\":1}" }
    ensures show { line_text (asked (commands.Show (keys.Meter 5)))
        ≡ codes "{\"do\":\"show\",\"key\":\"meter 5\",\"s\":1}" }
    ensures list { line_text (asked (commands.List kinds.Filter))
        ≡ codes "{\"do\":\"list\",\"kind\":\"filter\",\"s\":1}" }
    ensures since { line_text (asked (commands.Since 3)) ≡ codes "{\"after\":3,\"do\":\"since\",\"s\":1}" }
    ensures resume { line_text (asked commands.Resume) ≡ codes "{\"do\":\"resume\",\"s\":1}" }
    ensures sessions { line_text (asked commands.Sessions) ≡ codes "{\"do\":\"sessions\",\"s\":1}" }
    ensures setup { line_text (asked commands.Setup) ≡ codes "{\"do\":\"setup\",\"s\":1}" }
{}
