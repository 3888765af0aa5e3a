//! A look at a setup: what it has and what is seldom meant in it, or why it opens no bridge, and where it is at fault.
ghost use Rattle.std.specs.Prelude.{◌≡◌, ◌+◌, ◌≤◌, [], ◌++◌, length, IfOk};
ghost use Rattle.tsn_program.specs.Checking.{count_of, counted, summary, told};
ghost use Rattle.tsn_program.specs.Program.{ServesCheck, ShowsSummary, TellsFault};
ghost use Rattle.tsn_failures.specs.Output.{written};
ghost use Rattle.tsn_encoding.specs.declared.text.TheConstants.{CAPACITY};

use std::alloc::{AllocError, Global};
use tsn_bridge::bridge::Bridge;
use tsn_bytes::{ByteOut, Fault};
use tsn_encoding::ShortText;
use tsn_failures::{Failure, fail, show, status_of, tell};
use tsn_initial::bridge_of;
use tsn_remarks::remarks;
use tsn_types::keys::Kind;
use tsn_types::refusals::Refusal;
use tsn_where::fault_line;

// How many instances of the kind there are.
fn count_of(alloc: Global, bridge: &Bridge, kind: Kind) -> Result<u64, AllocError>
    ensures { IfOk result (λ n. n ≡ count_of kind bridge.now) }
{
    let ids = bridge.config().ids(alloc, kind)?;
    Ok(ids.as_slice().len() as u64)
}

// Puts so many of a thing at the end, and what parts it from the next.
fn push_count(text: &mut ShortText, number: u64, name: &str, rest: &str)
    requires room { length text.old + 40 ≤ CAPACITY }
    requires name { length name.now ≤ 10 }
    requires rest { length rest.now ≤ 2 }
    ensures text { text.new ≡ text.old ++ counted name.now number ++ rest.now }
    ensures len { length text.new ≤ length text.old + 40 }
{
    text.push_number(number);
    text.push(" ");
    text.push(name);
    text.push(if number == 1 { "" } else { "s" });
    text.push(rest);
}

// What there is.
fn summary(alloc: Global, bridge: &Bridge) -> Result<ShortText, AllocError>
    ensures { IfOk result (λ text. text ≡ summary bridge.now) }
{
    let ports = count_of(alloc, bridge, Kind::Port)?;
    let filters = count_of(alloc, bridge, Kind::Filter)?;
    let gates = count_of(alloc, bridge, Kind::Gate)?;
    let meters = count_of(alloc, bridge, Kind::Meter)?;
    let mut text = ShortText::new();
    push_count(&mut text, ports, "port", ", ");
    push_count(&mut text, filters, "filter", ", ");
    push_count(&mut text, gates, "gate", ", ");
    push_count(&mut text, meters, "meter", "\n");
    Ok(text)
}

// What there is, and behind it what is seldom meant.
fn told(alloc: Global, bridge: &Bridge) -> Result<Vec<u8>, AllocError>
    ensures { IfOk result (λ text. text.items ≡ told bridge.now) }
{
    let summary = summary(alloc, bridge)?;
    let remarks = remarks(alloc, bridge.config())?;
    let mut text = Vec::from_slice(alloc, summary.as_slice())?;
    text.extend_from_slice(remarks.as_bytes())?;
    Ok(text)
}

// Shows what there is, and what is seldom meant in it.
fn show_summary<W: ByteOut>(alloc: Global, bridge: &Bridge, writer: &mut W) -> Result<(), Failure>
    ensures { ShowsSummary bridge.now
        (written W.taken W.pending W.has_failed writer.old writer.new)
        result }
{
    match told(alloc, bridge) {
        Ok(text) => show(writer, text.as_slice()),
        Err(_) => Err(Failure::Fault(Fault::Memory)),
    }
}

// Tells why a setup is refused, and then where it is at fault.
fn fail_at<E: ByteOut>(alloc: Global, setup: &[u8], why: &Refusal, errors: &mut E) -> u8
    ensures { TellsFault why.now result
        (written E.taken E.pending E.has_failed errors.old errors.new) }
{
    let status = fail(errors, Failure::Refused(*why));
    let spot = fault_line(alloc, setup, *why);
    tell(errors, spot.as_bytes());
    status
}

/// Looks at the setup of a text, and gives the status: 0 where it opens a bridge, after a line that says what this has,
/// and a line on each thing in it that is seldom meant; 1 where it opens none, after the line of that failure and a
/// text that may say where the setup is at fault.
pub fn check_setup<O: ByteOut, E: ByteOut>(
    alloc: Global,
    setup: &[u8],
    output: &mut O,
    errors: &mut E,
) -> u8
    ensures { ServesCheck setup.now
        (written O.taken O.pending O.has_failed output.old output.new)
        result
        (written E.taken E.pending E.has_failed errors.old errors.new) }
{
    match bridge_of(alloc, setup) {
        Ok(bridge) => {
            let outcome = show_summary(alloc, &bridge, output);
            status_of(errors, outcome)
        }
        Err(why) => fail_at(alloc, setup, &why, errors),
    }
}
