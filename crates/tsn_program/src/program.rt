//! The program, from what its words ask for, its setup's text, its input and two outputs to its status.
ghost use Rattle.std.specs.Prelude.{Ok};
ghost use Rattle.tsn_serve.specs.Outcomes.{moment};
ghost use Rattle.tsn_initial.specs.Opening.{IsNew};
ghost use Rattle.tsn_program.specs.Program.{IsAlone, PrintsFrom, PrintsStates, RefusesWords, Serves, ServesScript, ServesStates, ServesText};
ghost use Rattle.tsn_failures.specs.Output.{written};

use crate::checking::check_setup;
use crate::script::answer_script;
use crate::states::{enable_at, first_instant, listed_port, write_states};
use std::alloc::Global;
use tsn_bridge::bridge::Bridge;
use tsn_bytes::{ByteIn, ByteOut, Fault};
use tsn_failures::{Failure, show, status_of, tell};
use tsn_initial::bridge_of;
use tsn_words::{Asked, Listing};

// Prints the states of a port of the bridge, and hands them on.
fn list_states<W: ByteOut>(
    bridge: &mut Bridge,
    listing: &Listing,
    writer: &mut W,
) -> Result<(), Failure>
    requires { IsNew bridge.old }
    ensures { PrintsFrom (Ok bridge.old) listing.now
        (written W.taken W.pending W.has_failed writer.old writer.new)
        result }
{
    let port = match listed_port(bridge.config().limits(), listing) {
        Ok(port) => port,
        Err(why) => return Err(Failure::Refused(why)),
    };
    match enable_at(bridge, port, first_instant(listing)) {
        Ok(()) => {}
        Err(why) => return Err(Failure::Refused(why)),
    }
    match write_states(bridge, port, listing, writer) {
        Ok(()) => {}
        Err(fault) => return Err(Failure::Fault(fault)),
    }
    let Ok(()) = writer.flush() else {
        return Err(Failure::Fault(Fault::Write));
    };
    Ok(())
}

// Prints the states of a port of the bridge that the setup opens.
fn print_states<W: ByteOut>(
    alloc: Global,
    setup: &[u8],
    listing: &Listing,
    writer: &mut W,
) -> Result<(), Failure>
    ensures { PrintsStates setup.now listing.now
        (written W.taken W.pending W.has_failed writer.old writer.new)
        result }
{
    let mut bridge = match bridge_of(alloc, setup) {
        Ok(bridge) => bridge,
        Err(why) => return Err(Failure::Refused(why)),
    };
    list_states(&mut bridge, listing, writer)
}

// Answers the script on the input, and gives the status.
fn serve_script<R: ByteIn, O: ByteOut, E: ByteOut>(
    alloc: Global,
    setup: &[u8],
    input: &mut R,
    output: &mut O,
    errors: &mut E,
) -> u8
    ensures { ServesScript setup.now
        (λ s. moment R.remaining R.calls R.has_failed O.taken O.pending O.has_failed s input.old output.old)
        (λ s. moment R.remaining R.calls R.has_failed O.taken O.pending O.has_failed s input.new output.new)
        result
        (written E.taken E.pending E.has_failed errors.old errors.new) }
{
    let outcome = answer_script(alloc, setup, input, output);
    status_of(errors, outcome)
}

// Prints the states that are listed, and gives the status.
fn serve_states<O: ByteOut, E: ByteOut>(
    alloc: Global,
    setup: &[u8],
    listing: &Listing,
    output: &mut O,
    errors: &mut E,
) -> u8
    ensures { ServesStates listing.now setup.now
        (written O.taken O.pending O.has_failed output.old output.new)
        result
        (written E.taken E.pending E.has_failed errors.old errors.new) }
{
    let outcome = print_states(alloc, setup, listing, output);
    status_of(errors, outcome)
}

// Shows the text, and gives the status.
fn serve_text<O: ByteOut, E: ByteOut>(text: &[u8], output: &mut O, errors: &mut E) -> u8
    ensures { ServesText text.now
        (written O.taken O.pending O.has_failed output.old output.new)
        result
        (written E.taken E.pending E.has_failed errors.old errors.new) }
{
    let outcome = show(output, text);
    status_of(errors, outcome)
}

// Tells why the words are refused, and gives the status.
fn refuse_words<E: ByteOut>(text: &[u8], errors: &mut E) -> u8
    ensures { RefusesWords text.now result
        (written E.taken E.pending E.has_failed errors.old errors.new) }
{
    tell(errors, text);
    2
}

/// Does what is asked for, with the setup of this text, and gives the status: 0; 1 after one line that says what
/// failed; 2 after a text that says why the words are refused. Connections are served by `serve`, which takes a source
/// of them. What asks for a journal is not done here.
pub fn run<R: ByteIn, O: ByteOut, E: ByteOut>(
    alloc: Global,
    asked: &Asked,
    setup: &[u8],
    input: &mut R,
    output: &mut O,
    errors: &mut E,
) -> u8
    requires { IsAlone asked.now }
    ensures { Serves asked.now setup.now
        (λ s. moment R.remaining R.calls R.has_failed O.taken O.pending O.has_failed s input.old output.old)
        (λ s. moment R.remaining R.calls R.has_failed O.taken O.pending O.has_failed s input.new output.new)
        result
        (written E.taken E.pending E.has_failed errors.old errors.new) }
{
    match asked {
        Asked::Script { kept: None, .. } => serve_script(alloc, setup, input, output, errors),
        Asked::Script { kept: Some(_), .. } => unreachable!(),
        Asked::States { listing, .. } => serve_states(alloc, setup, listing, output, errors),
        Asked::Serve { .. } => unreachable!(),
        Asked::Check { .. } => check_setup(alloc, setup, output, errors),
        Asked::Lines => unreachable!(),
        Asked::Journal { .. } => unreachable!(),
        Asked::Shown(text) => serve_text(text.as_bytes(), output, errors),
        Asked::Refused(text) => refuse_words(text.as_bytes(), errors),
    }
}
