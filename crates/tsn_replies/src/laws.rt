//! What the definitions of this crate say of worked examples, so that a definition and a body that are wrong alike
//! are found out. Each function does nothing; its contract is what is proved.
ghost use Rattle.std.specs.Prelude.{◌≡◌, [], ◌∷◌, true, false, Some, None, codes};
ghost use Rattle.tsn_commands.specs.declared.reply.Reply.TheVariants as replies;
ghost use Rattle.tsn_chain.specs.declared.frame.DropCause.TheVariants as causes;
ghost use Rattle.tsn_chain.specs.declared.frame.Verdict.TheVariants as verdicts;
ghost use Rattle.tsn_chain.specs.declared.state.Counters.TheVariants as counters;
ghost use Rattle.tsn_chain.specs.declared.state.State.TheVariants as states;
ghost use Rattle.tsn_types.specs.Examples.{a_port, a_filter, a_gate, a_meter};
ghost use Rattle.tsn_records.specs.Examples.{port_text, filter_text, gate_text, meter_text};
ghost use Rattle.tsn_replies.specs.Examples.{dropped_line, shown_line, a_removal_undone, removal_undone_text, a_removal_redone, removal_redone_text, a_batch_redone, batch_redone_text, an_apply, apply_text, a_settle, a_list, a_counted_filter, port_counters_text, filter_counters_text, gate_counters_text};
ghost use Rattle.tsn_replies.specs.Replies.{reply_text};
ghost use Rattle.tsn_types.specs.declared.keys.Key.TheVariants as keys;
ghost use Rattle.tsn_types.specs.declared.records.Record.TheVariants as records;
ghost use Rattle.tsn_types.specs.declared.refusals.Field.TheVariants as fields;
ghost use Rattle.tsn_types.specs.declared.refusals.Refusal.TheVariants as refusals;

/// The text of replies.
#[tactic(auto, unfolding(tsn_encoding::proofs::OnLiterals::replies_on_literals))]
pub fn replies_are_spelled()
    ensures session { reply_text (replies.Session 1) ≡ codes "{\"session\":1}\n" }
    ensures entry { reply_text (replies.Entry 3) ≡ codes "{\"entry\":3}\n" }
    ensures of { reply_text (replies.EntryOf 4 3) ≡ codes "{\"entry\":4,\"of\":3}\n" }
    ensures count { reply_text (replies.TakenBack 2 6) ≡ codes "{\"count\":2,\"entry\":6}\n" }
    ensures settled { reply_text (replies.Settled 4 2) ≡ codes "{\"entry\":4,\"settled\":2}\n" }
    ensures acted { reply_text (replies.Acted (Some 3000) 4 2500)
        ≡ codes "{\"change\":3000,\"entry\":4,\"now\":2500}\n" }
    ensures no_change { reply_text (replies.Acted None 5 2500) ≡ codes "{\"change\":null,\"entry\":5,\"now\":2500}\n" }
    ensures passed { reply_text (replies.Framed (verdicts.Passed (Some 3) 700 5 true))
        ≡ codes "{\"filter\":3,\"now\":700,\"priority\":5,\"verdict\":\"pass\",\"yellow\":true}\n" }
    ensures unmatched { reply_text (replies.Framed (verdicts.Passed None 700 0 false))
        ≡ codes "{\"filter\":null,\"now\":700,\"priority\":0,\"verdict\":\"pass\",\"yellow\":false}\n" }
    ensures blocked { dropped_line causes.Blocked ≡ codes "{\"filter\":3,\"now\":700,\"verdict\":\"blocked\"}\n" }
    ensures oversize { dropped_line causes.Oversize ≡ codes "{\"filter\":3,\"now\":700,\"verdict\":\"oversize\"}\n" }
    ensures closed { dropped_line causes.Closed ≡ codes "{\"filter\":3,\"now\":700,\"verdict\":\"closed\"}\n" }
    ensures octets { dropped_line causes.Octets ≡ codes "{\"filter\":3,\"now\":700,\"verdict\":\"octets\"}\n" }
    ensures red { dropped_line causes.Red ≡ codes "{\"filter\":3,\"now\":700,\"verdict\":\"red\"}\n" }
    ensures yellow { dropped_line causes.Yellow ≡ codes "{\"filter\":3,\"now\":700,\"verdict\":\"yellow\"}\n" }
    ensures port_gates { reply_text (replies.States (states.Port 129)) ≡ codes "{\"gates\":129}\n" }
    ensures open_gate { reply_text (replies.States (states.Gate true (Some 6))) ≡ codes "{\"ipv\":6,\"open\":true}\n" }
    ensures closed_gate { reply_text (replies.States (states.Gate false None))
        ≡ codes "{\"ipv\":null,\"open\":false}\n" }
    ensures port_counters { reply_text (replies.Counters (counters.Port a_list)) ≡ port_counters_text }
    ensures filter_counters { reply_text (replies.Counters (counters.Filter a_counted_filter)) ≡ filter_counters_text }
    ensures gate_counters { reply_text (replies.Counters (counters.Gate a_list true false)) ≡ gate_counters_text }
    ensures meter_counters { reply_text (replies.Counters (counters.Meter true)) ≡ codes "{\"all_red\":true}\n" }
    ensures range { reply_text (replies.Refused (refusals.Range fields.Key))
        ≡ codes "{\"field\":\"key\",\"refused\":4,\"why\":\"range\"}\n" }
    ensures dangling { reply_text (replies.Refused (refusals.Dangling (keys.Gate 9)))
        ≡ codes "{\"key\":\"gate 9\",\"refused\":8,\"why\":\"dangling\"}\n" }
    ensures referred { reply_text (replies.Refused (refusals.Referred (keys.Filter 3)))
        ≡ codes "{\"by\":\"filter 3\",\"refused\":9,\"why\":\"referred\"}\n" }
    ensures conflict { reply_text (replies.Refused (refusals.Conflict 4 5))
        ≡ codes "{\"other\":5,\"own\":4,\"refused\":11,\"why\":\"conflict\"}\n" }
    ensures nothing_to_redo { reply_text (replies.Refused refusals.NothingToRedo)
        ≡ codes "{\"refused\":12,\"why\":\"nothing_to_redo\"}\n" }
    ensures redo { reply_text (replies.Refused (refusals.RedoConflict 4))
        ≡ codes "{\"other\":4,\"refused\":13,\"why\":\"redo_conflict\"}\n" }
    ensures settled_already { reply_text (replies.Refused (refusals.Settled 2))
        ≡ codes "{\"refused\":19,\"upto\":2,\"why\":\"settled\"}\n" }
    ensures memory { reply_text (replies.Refused refusals.Memory) ≡ codes "{\"refused\":18,\"why\":\"memory\"}\n" }
{}

/// The text of records, of numbers of instances, of sessions and of a setup.
#[tactic(auto, unfolding(tsn_encoding::proofs::OnLiterals::replies_on_literals))]
pub fn records_are_shown()
    ensures port { reply_text (replies.Shown (keys.Port 1) (records.Port a_port))
        ≡ shown_line (codes "port 1") port_text }
    ensures filter { reply_text (replies.Shown (keys.Filter 3) (records.Filter a_filter))
        ≡ shown_line (codes "filter 3") filter_text }
    ensures gate { reply_text (replies.Shown (keys.Gate 0) (records.Gate a_gate))
        ≡ shown_line (codes "gate 0") gate_text }
    ensures meter { reply_text (replies.Shown (keys.Meter 0) (records.Meter a_meter))
        ≡ shown_line (codes "meter 0") meter_text }
    ensures ids { reply_text (replies.Ids (0 ∷ 1 ∷ 15 ∷ [])) ≡ codes "{\"ids\":[0,1,15]}\n" }
    ensures none { reply_text (replies.Ids []) ≡ codes "{\"ids\":[]}\n" }
    ensures sessions { reply_text (replies.Sessions
        (record { name = None; session = 1; standing = 0 } ∷ record { name = Some (codes "anna \"n\""); session = 2; standing = 13 } ∷ []))
        ≡ codes "{\"sessions\":[{\"name\":null,\"session\":1,\"standing\":0},{\"name\":\"anna \\\"n\\\"\",\"session\":2,\"standing\":13}]}\n" }
    ensures setup { reply_text (replies.Setup (codes "ports = 2\n\n[[port]]\n"))
        ≡ codes "{\"setup\":\"ports = 2\\n\\n[[port]]\\n\"}\n" }
{}

/// The text of the journal's entries.
#[tactic(auto, unfolding(tsn_encoding::proofs::OnLiterals::replies_on_literals))]
pub fn entries_are_told()
    ensures undone { reply_text (replies.Entries a_removal_undone) ≡ removal_undone_text }
    ensures redone { reply_text (replies.Entries a_removal_redone) ≡ removal_redone_text }
    ensures batch { reply_text (replies.Entries a_batch_redone) ≡ batch_redone_text }
    ensures acted { reply_text (replies.Entries an_apply) ≡ apply_text }
    ensures settled { reply_text (replies.Entries a_settle)
        ≡ codes "{\"entries\":[{\"entry\":8,\"session\":2,\"settled\":7,\"what\":\"settled\"}]}\n" }
    ensures none { reply_text (replies.Entries []) ≡ codes "{\"entries\":[]}\n" }
{}
