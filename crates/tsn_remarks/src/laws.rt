//! Worked examples of remarks. They are about the definitions alone. Nothing calls them as the program runs.
ghost use Rattle.std.specs.Prelude.{◌≡◌, [], codes};
ghost use Rattle.tsn_types.specs.declared.keys.Key.TheVariants.{Gate, Port};
ghost use Rattle.tsn_remarks.specs.Examples.{configuration, empty_gate, empty_port, entries, filled_port, lines, short_port};
ghost use Rattle.tsn_remarks.specs.Remarks.{remarks, remarks_on};

/// Of a port whose list fills its cycle, and of one whose list is empty, nothing is told; of one whose list is too
/// short the list is, and of a stream gate without a filter that. The whole configuration has each of them, a list that
/// is too long, and a stream gate and a flow meter to which a filter refers.
pub fn remarks_are_written()
    ensures filled { remarks_on entries (Port 1, filled_port) ≡ [] }
    ensures short { remarks_on entries (Port 2, short_port)
        ≡ codes "port 2: its list takes 900 ns of a cycle of 1000 ns\n" }
    ensures empty { remarks_on entries (Port 3, empty_port) ≡ [] }
    ensures unreferred { remarks_on entries (Gate 1, empty_gate) ≡ codes "gate 1: no filter refers to it\n" }
    ensures whole { remarks configuration ≡ lines }
{}
