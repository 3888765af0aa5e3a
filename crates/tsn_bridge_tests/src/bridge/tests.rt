//! What no script shows: the last session, a session that no line can name, a key that no line asks to enable, a full
//! journal step by step, and which key a refused setup names. `examples/tables/sessions-*.txt`, `acts-*.txt` and
//! `frames-*.txt` have what commands answer. One function makes the bridges and lends them to those that step them: so
//! a proof goes once over a bridge's end, and not at each place where want of memory ends a step.
ghost use Rattle.std.specs.Prelude.{◌≤◌};

use crate::comparing::same;
use std::alloc::Global;
use std::process::Abort;
use std::test::Fail;
use tsn_bridge::bridge::{Bridge, Setup};
use tsn_bridge::command::Command;
use tsn_bridge::reply::Reply;
use tsn_samples::{meter_key, meter_record};
use tsn_types::keys::Key;
use tsn_types::numbers::{FilterId, Instant};
use tsn_types::refusals::{Field, Refusal};

/// The reply to a command, or an error where memory is refused: a test ends by that, and not by another answer.
fn step(bridge: &mut Bridge, session: u32, command: Command) -> Result<Reply, Refusal> {
    let reply = bridge.step(session, command);
    if matches!(reply, Reply::Refused(Refusal::Memory)) {
        return Err(Refusal::Memory);
    }
    Ok(reply)
}

fn create(bridge: &mut Bridge, session: u32, number: u64) -> Result<Reply, Refusal>
    requires { number ≤ 65535 }
{
    let command = Command::Create {
        key: meter_key(number),
        value: meter_record(),
    };
    step(bridge, session, command)
}

/// Whether the entry of the number was made.
fn is_entry(reply: Reply, number: u64) -> bool {
    match &reply {
        Reply::Entry { entry } => *entry == number,
        _ => false,
    }
}

/// Whether the command was refused for this cause.
fn is_refused(reply: Reply, wanted: Refusal) -> bool {
    match &reply {
        Reply::Refused(why) => *why == wanted,
        _ => false,
    }
}

/// Whether a hello was answered by the session of the number.
fn is_session(reply: Reply, number: u32) -> bool {
    match &reply {
        Reply::Session { session } => *session == number,
        _ => false,
    }
}

/// Plays on a bridge that has given out session 1.
fn on_a_bridge<F: FnOnce(&mut Bridge) -> Result<(), Fail>>(
    rt: &impl Abort,
    alloc: Global,
    play: F,
) -> Result<(), Fail>
    requires { F.IsAlwaysCallable play }
{
    let mut bridge = Bridge::new(alloc, Setup::standard(alloc))?;
    assert!(rt; is_session(bridge.step(0, Command::Hello { name: None }), 1));
    play(&mut bridge)
}

/// Creates meter 1 and takes that back, so many times.
fn fill(bridge: &mut Bridge, pairs: u32) -> Result<(), Refusal> {
    for _ in 0..pairs {
        let _ = create(bridge, 1, 1)?;
        let _ = step(bridge, 1, Command::Undo)?;
    }
    Ok(())
}

fn give_out_every_session(rt: &impl Abort, bridge: &mut Bridge) -> Result<(), Fail> {
    for number in 2..65_536u32 {
        assert!(rt; is_session(step(bridge, 0, Command::Hello { name: None })?, number));
    }
    let more = Refusal::Range(Field::Session);
    assert!(rt; is_refused(step(bridge, 0, Command::Hello { name: None })?, more));
    assert!(rt; is_entry(create(bridge, 65_535, 1)?, 1));
    assert!(rt; is_refused(create(bridge, 65_536, 2)?, Refusal::NoSession));
    assert!(rt; is_refused(step(bridge, 0, Command::Undo)?, Refusal::NoSession));
    Ok(())
}

/// A stream filter has no list.
fn enable_a_filter(rt: &impl Abort, bridge: &mut Bridge) -> Result<(), Fail> {
    let key = Key::Filter(FilterId::new(3).unwrap());
    let now = Instant::new(0)?;
    assert!(rt;
        is_refused(
            step(bridge, 1, Command::Enable { key, now })?,
            Refusal::Shape
        )
    );
    Ok(())
}

#[test]
fn sessions_are_given_out_until_the_last(rt: HostRuntime) -> Result<(), Fail> {
    on_a_bridge(&rt, rt.alloc(), |bridge| {
        enable_a_filter(&rt, bridge)?;
        give_out_every_session(&rt, bridge)
    })
}

/// The journal has so many entries, and meter 1 is there or not.
fn has(rt: &impl Abort, bridge: &Bridge, entries: usize, has_meter: bool) {
    same(rt, &bridge.journal().len(), &entries);
    same(rt, &bridge.config().get(meter_key(1)).is_some(), &has_meter);
}

fn fill_up(rt: &impl Abort, bridge: &mut Bridge) -> Result<(), Fail> {
    fill(bridge, 131_071)?;
    has(rt, bridge, 262_142, false);
    assert!(rt; is_entry(create(bridge, 1, 1)?, 262_143));
    assert!(rt; is_entry(create(bridge, 1, 2)?, 262_144));
    assert!(rt; is_refused(create(bridge, 1, 3)?, Refusal::JournalFull));
    assert!(rt; is_refused(step(bridge, 1, Command::Undo)?, Refusal::JournalFull));
    has(rt, bridge, 262_144, true);
    Ok(())
}

#[test]
fn a_full_journal_takes_no_more(rt: HostRuntime) -> Result<(), Fail> {
    on_a_bridge(&rt, rt.alloc(), |bridge| fill_up(&rt, bridge))
}
