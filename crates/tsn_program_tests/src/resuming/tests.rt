//! A journal that is whole, damaged, cut and refused, and the first commands of journals.
use crate::comparing::same;
use crate::resuming::journals::{
    COMMANDS, CREATE_FILTER, Count, HELLO, NOTHING, REMOVE_FILTER, UNDO, fault, journal, start,
    text_of,
};
use std::test::Fail;
use tsn_bridge::command::Command;
use tsn_bridge::reply::Reply;
use tsn_bytes::MemIn;
use tsn_recorded::End;
use tsn_resuming::{NoSetup, StartFault, Unwatched, first_command, resume, setup_in};
use tsn_types::keys::Key;
use tsn_types::numbers::{FilterId, GateId};
use tsn_types::refusals::{Field, Refusal};

const SETUP: &[u8] = b"ports = 3\n# \"\\\t\n";

// It has a byte that no setup may have.
const CONTROLLED: &[u8] = b"ports = 3\n# \"\\\t\x01\n";

// The number of the entry that a reply tells of, and of the one that it takes back.
fn taken_back(reply: &Reply) -> Option<(u64, u64)> {
    match reply {
        Reply::EntryOf { entry, of } => Some((*entry, *of)),
        _ => None,
    }
}

// Writes another byte at this place.
fn damage(text: &mut Vec<u8>, place: usize) {
    if place < text.len() {
        text[place] = b'!';
    }
}

#[test]
fn bridge_goes_on(rt: HostRuntime) -> Result<(), Fail> {
    let text = journal(rt.alloc(), SETUP, &COMMANDS)?;
    let bytes = text.len() as u64;
    let mut told = NOTHING;
    let mut resumed = start(rt.alloc(), text, Some(SETUP), &mut told)?;
    same(
        &rt,
        &(resumed.lines, resumed.good, resumed.end),
        &(7, bytes, End::Whole),
    );
    same(
        &rt,
        &told,
        &Count {
            began: 1,
            stepped: 6,
        },
    );
    same(
        &rt,
        &taken_back(&resumed.bridge.step(1, Command::Undo)),
        &Some((6, 2)),
    );
    Ok(())
}

#[test]
fn end_is_told(rt: HostRuntime) -> Result<(), Fail> {
    let mut text = journal(rt.alloc(), b"", &COMMANDS)?;
    let front = journal(rt.alloc(), b"", &COMMANDS[..3])?;
    let good = front.len() as u64;
    let mut told = NOTHING;
    let mut cut = text.clone()?;
    cut.truncate(front.len() + 5);
    let resumed = start(rt.alloc(), cut, None, &mut told)?;
    same(
        &rt,
        &(resumed.lines, resumed.good, resumed.end),
        &(4, good, End::Unfinished { bytes: 5 }),
    );
    damage(&mut text, front.len() + 60);
    let resumed = start(rt.alloc(), text, None, &mut told)?;
    same(
        &rt,
        &(resumed.lines, resumed.good, resumed.end),
        &(4, good, End::Damaged { line: 5 }),
    );
    Ok(())
}

#[test]
fn faults_are_told(rt: HostRuntime) -> Result<(), Fail> {
    let alloc = rt.alloc();
    same(
        &rt,
        &fault(alloc, journal(alloc, SETUP, &[])?, Some(b"")),
        &Some(StartFault::OtherSetup),
    );
    same(
        &rt,
        &fault(
            alloc,
            journal(alloc, b"ports = 3", &[])?,
            Some(b"ports = 2"),
        ),
        &Some(StartFault::OtherSetup),
    );
    same(
        &rt,
        &fault(alloc, journal(alloc, b"ports = 0", &[])?, None),
        &Some(StartFault::Setup(Refusal::Range(Field::Ports))),
    );
    same(
        &rt,
        &fault(alloc, Vec::new(alloc), None),
        &Some(StartFault::NoJournal),
    );
    same(
        &rt,
        &fault(alloc, Vec::from_slice(alloc, b"ports = 2\n")?, None),
        &Some(StartFault::NoJournal),
    );
    same(
        &rt,
        &fault(alloc, text_of(alloc, HELLO, &COMMANDS)?, None),
        &Some(StartFault::NoJournal),
    );
    let other = b"{\"journal\":3,\"names\":true}";
    same(
        &rt,
        &fault(alloc, text_of(alloc, other, &[])?, None),
        &Some(StartFault::OtherVersion),
    );
    Ok(())
}

#[test]
fn refused_line_is_told(rt: HostRuntime) -> Result<(), Fail> {
    let alloc = rt.alloc();
    let missing = Refusal::Missing(Key::Filter(FilterId::new(3).unwrap()));
    same(
        &rt,
        &fault(alloc, journal(alloc, b"", &[HELLO, REMOVE_FILTER])?, None),
        &Some(StartFault::Refused {
            line: 3,
            why: missing,
        }),
    );
    same(
        &rt,
        &fault(alloc, journal(alloc, b"", &[UNDO, HELLO])?, None),
        &Some(StartFault::Refused {
            line: 2,
            why: Refusal::NoSession,
        }),
    );
    same(
        &rt,
        &fault(alloc, journal(alloc, b"", &[HELLO, b"hello"])?, None),
        &Some(StartFault::Refused {
            line: 3,
            why: Refusal::Syntax,
        }),
    );
    same(
        &rt,
        &fault(alloc, journal(alloc, b"", &[HELLO, CREATE_FILTER])?, None),
        &Some(StartFault::Refused {
            line: 3,
            why: Refusal::Dangling(Key::Gate(GateId::new(0).unwrap())),
        }),
    );
    Ok(())
}

#[test]
fn failed_read_is_told(rt: HostRuntime) -> Result<(), Fail> {
    for calls in 0..4 {
        let text = journal(rt.alloc(), b"", &COMMANDS)?;
        let mut file = MemIn::new(text, 100, Some(calls));
        let found = resume(rt.alloc(), &mut file, None, &mut Unwatched).err();
        same(&rt, &found, &Some(StartFault::Read));
    }
    Ok(())
}

#[test]
fn first_commands(rt: HostRuntime) -> Result<(), Fail> {
    let alloc = rt.alloc();
    let first = first_command(alloc, CONTROLLED)?;
    let text = b"{\"journal\":2,\"setup\":\"ports = 3\\n# \\\"\\\\\\t\\u0001\\n\"}";
    same(&rt, &first.as_slice(), &text.as_slice());
    same(
        &rt,
        &first_command(alloc, b"\xff").err(),
        &Some(Refusal::Syntax),
    );
    let setup = setup_in(alloc, first.as_slice())?;
    same(&rt, &setup.as_slice(), &CONTROLLED);
    same(
        &rt,
        &setup_in(alloc, b" {\"setup\":\"\",\"journal\":1 }")?.len(),
        &0,
    );
    for text in [
        "{\"journal\":2}",
        "{\"journal\":1}",
        "{\"journal\":1,\"setup\":\"\",\"x\":0}",
        "{\"journal\":\"1\",\"setup\":\"\"}",
        "{\"journal\":1,\"setup\":2}",
        "1",
        "",
    ] {
        same(
            &rt,
            &setup_in(alloc, text.as_bytes()).err(),
            &Some(NoSetup::NoJournal),
        );
    }
    Ok(())
}
