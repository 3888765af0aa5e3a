//! The states of a port at even steps, one line each: the instant in decimal, and the eight gates in two hexadecimal
//! digits.
ghost use Rattle.std.specs.Prelude.{◌≡◌, ◌-◌, ◌<◌, ◌≤◌, nat_le, if◌then◌else◌, true, IfErr, IfOk, OnErr, OnOk, Some, None};
ghost use Rattle.std.specs.FinMap.{get};
ghost use Rattle.std.specs.Io.KnownBytes.{Appends};
ghost use Rattle.tsn_types.specs.declared.keys.Key.TheVariants.{Port};
ghost use Rattle.tsn_types.specs.Limits.{holds_key};
ghost use Rattle.tsn_types.specs.Numbers.{greatest_instant};
ghost use Rattle.tsn_chain.specs.declared.state.State.TheVariants as shown;
ghost use Rattle.tsn_undo.specs.Ledger.{present};
ghost use Rattle.tsn_bridge.specs.Acts.{has_entry};
ghost use Rattle.tsn_commands.specs.declared.command.Command.TheVariants as commands;
ghost use Rattle.tsn_bytes.specs.declared.bytes.Fault.TheVariants.{Write};
ghost use Rattle.tsn_program.specs.Listing.{Applies, Enables, EnablesNot, EndsEarly, IsRefused, IsSeenFrom, Takes, gates_told, hexadecimal, instant_of, line_at, lines, listing_refusal, refusal_told, shows, state_line};
ghost use Rattle.tsn_initial.specs.Opening.{IsNew};

use tsn_bridge::bridge::Bridge;
use tsn_bridge::command::Command;
use tsn_bridge::reply::Reply;
use tsn_bytes::{ByteOut, Fault, put_all};
use tsn_chain::state::State;
use tsn_encoding::ShortText;
use tsn_types::keys::Key;
use tsn_types::limits::Limits;
use tsn_types::numbers::{Instant, PortId};
use tsn_types::records::RecordRef;
use tsn_types::refusals::{Field, Refusal};
use tsn_words::Listing;

// The port of the number, where the bridge has it.
fn port_of(limits: Limits, number: u64) -> Option<PortId>
    ensures { result ≡ (if holds_key limits (Port number) then Some number else None) }
{
    let Ok(port) = PortId::new(number) else {
        return None;
    };
    if limits.holds(Key::Port(port)) {
        Some(port)
    } else {
        None
    }
}

// Whether the last instant is one.
fn is_in_time(listing: &Listing) -> bool
    ensures { result ≡ nat_le (instant_of listing.now (listing.now.count - 1)) greatest_instant }
{
    let steps = listing.count.saturating_sub(1);
    let Some(time) = listing.step.checked_mul(steps) else {
        return false;
    };
    let Some(last) = listing.from.checked_add(time) else {
        return false;
    };
    Instant::new(last).is_ok()
}

/// The port that is listed; refused 4 where the bridge does not have it, or where an instant is greater than any.
pub fn listed_port(limits: Limits, listing: &Listing) -> Result<PortId, Refusal>
    ensures ok { IfOk result (λ port. (listing_refusal limits listing.now ≡ None) × (port ≡ listing.now.port)
        × (instant_of listing.now (listing.now.count - 1) ≤ greatest_instant)) }
    ensures refused { IfErr result (λ why. listing_refusal limits listing.now ≡ Some why) }
{
    let Some(port) = port_of(limits, listing.port) else {
        return Err(Refusal::Range(Field::Key));
    };
    if !is_in_time(listing) {
        return Err(Refusal::Range(Field::At));
    }
    Ok(port)
}

// Why the reply is a refusal, if it is one.
fn refusal_told(reply: Reply) -> Option<Refusal>
    ensures { result ≡ refusal_told reply }
{
    match &reply {
        Reply::Refused(why) => Some(*why),
        _ => None,
    }
}

// Gives a command, which may be refused.
fn take(bridge: &mut Bridge, session: u32, command: Command) -> Result<(), Refusal>
    ensures ok { OnOk result (Takes bridge.old session command bridge.new) }
    ensures refused { IfErr result (IsRefused bridge.old session command) }
{
    let reply = bridge.step(session, command);
    match refusal_told(reply) {
        None => Ok(()),
        Some(why) => Err(why),
    }
}

// Whether the list of the record at the key has an entry.
fn has_list(bridge: &Bridge, key: Key) -> bool
    ensures { result ≡ has_entry (get (present bridge.now.book) key) }
{
    match bridge.config().get(key) {
        Some(RecordRef::Port(record)) => record.admin.list.len() != 0,
        Some(RecordRef::Gate(record)) => record.admin.list.len() != 0,
        _ => false,
    }
}

// Applies the list of the port, where it has an entry.
fn apply_listed(
    bridge: &mut Bridge,
    port: PortId,
    now: Instant,
    is_listed: bool,
) -> Result<(), Refusal>
    ensures ok { OnOk result (Applies is_listed bridge.old port now bridge.new) }
    ensures refused { IfErr result (IsRefused bridge.old 1 (commands.Apply (Port port) now)) }
{
    if !is_listed {
        return Ok(());
    }
    let key = Key::Port(port);
    take(bridge, 1, Command::Apply { key, now })
}

/// Enables the port at the instant, for a first session, and applies its list then, where it has an entry.
pub fn enable_at(bridge: &mut Bridge, port: PortId, now: Instant) -> Result<(), Refusal>
    requires { IsNew bridge.old }
    ensures ok { OnOk result (Enables bridge.old port now bridge.new) }
    ensures seen { OnOk result (IsSeenFrom bridge.new port now) }
    ensures refused { IfErr result (EnablesNot bridge.old port now) }
{
    let is_listed = has_list(bridge, Key::Port(port));
    take(bridge, 0, Command::Hello { name: None })?;
    let key = Key::Port(port);
    take(bridge, 1, Command::Enable { key, now })?;
    apply_listed(bridge, port, now, is_listed)
}

/// The instant of the first line.
pub fn first_instant(listing: &Listing) -> Instant
    requires { instant_of listing.now (listing.now.count - 1) ≤ greatest_instant }
    ensures { result ≡ listing.now.from }
{
    Instant::new(listing.from).unwrap()
}

// The instant of a line.
fn instant_at(listing: &Listing, place: u64) -> Instant
    requires place { place < listing.now.count }
    requires last { instant_of listing.now (listing.now.count - 1) ≤ greatest_instant }
    ensures { result ≡ instant_of listing.now place }
{
    Instant::new(listing.from + listing.step * place).unwrap()
}

fn hexadecimal(digit: u8) -> u8
    requires { digit < 16 }
    ensures { result ≡ hexadecimal digit }
{
    if digit < 10 {
        b'0' + digit
    } else {
        b'a' + (digit - 10)
    }
}

// The line of an instant, in place of what the text had.
fn put_line(text: &mut ShortText, at: Instant, gates: u8)
    ensures { text.new ≡ state_line at (Some (shown.Port gates)) }
{
    text.clear();
    text.push_number(at.get());
    text.push(" ");
    text.push_bytes(&[hexadecimal(gates / 16), hexadecimal(gates % 16)]);
    text.push("\n");
}

// The gates that a reply tells.
fn gates_told(reply: Reply) -> Option<u8>
    ensures { result ≡ gates_told reply }
{
    match &reply {
        Reply::States(State::Port { gates }) => Some(*gates),
        _ => None,
    }
}

// The gates of the port at the instant.
fn gates_at(bridge: &Bridge, port: PortId, at: Instant) -> u8
    requires { IsSeenFrom bridge.now port at }
    ensures { shows bridge.now (Port port) at ≡ Some (shown.Port result) }
{
    let reply = bridge.states(1, &Key::Port(port), at);
    match gates_told(reply) {
        Some(gates) => gates,
        None => unreachable!(),
    }
}

// The line of this number, in place of what the text had.
fn put_line_at(text: &mut ShortText, bridge: &Bridge, port: PortId, listing: &Listing, place: u64)
    requires port { port ≡ listing.now.port }
    requires place { place < listing.now.count }
    requires last { instant_of listing.now (listing.now.count - 1) ≤ greatest_instant }
    requires seen { IsSeenFrom bridge.now port listing.now.from }
    ensures { text.new ≡ line_at bridge.now listing.now place }
{
    let at = instant_at(listing, place);
    let gates = gates_at(bridge, port, at);
    put_line(text, at, gates);
}

/// Writes the line of each instant. Where the writer fails, the lines before were written, and of this one a front.
pub fn write_states<W: ByteOut>(
    bridge: &mut Bridge,
    port: PortId,
    listing: &Listing,
    writer: &mut W,
) -> Result<(), Fault>
    requires port { port ≡ listing.now.port }
    requires last { instant_of listing.now (listing.now.count - 1) ≤ greatest_instant }
    requires seen { IsSeenFrom bridge.old port listing.now.from }
    ensures ok { OnOk result (Appends (W.taken writer.old) (W.taken writer.new) (lines bridge.old listing.now listing.now.count)) }
    ensures worked { OnOk result (W.has_failed writer.new ≡ W.has_failed writer.old) }
    ensures fault { IfErr result (λ fault. fault ≡ Write) }
    ensures failed { OnErr result (W.has_failed writer.new ≡ true) }
    ensures cut { OnErr result (EndsEarly bridge.old listing.now (W.taken writer.old) (W.taken writer.new)) }
{
    let mut line = ShortText::new();
    for place in 0..listing.count {
        put_line_at(&mut line, bridge, port, listing, place);
        put_all(writer, line.as_slice())?;
    }
    Ok(())
}
