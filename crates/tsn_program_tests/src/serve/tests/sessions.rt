//! Sessions over a shared bridge: one in memory whose replies are compared with a text, and two that are served at
//! once.
ghost use Rattle.std.specs.Prelude.{◌≡◌, ◌≤◌, ◌<◌, IfOk, All, vec_len};
ghost use Rattle.tsn_desk.specs.Desks.{IsSeatOf, first_of};
ghost use Rattle.tsn_bridge.specs.Beginning.{IsOpened};

use crate::comparing::same;
use std::alloc::Global;
use std::process::Abort;
use std::sync::Wait;
use std::sync::atomic::{AtomicU64, Ordering};
use std::test::Fail;
use std::thread;
use std::thread::Threads;
use std::time::{Clock, Duration};
use tsn_bridge::bridge::{Bridge, Setup};
use tsn_bytes::{Buffered, Fault, MemIn, MemOut};
use tsn_desk::desk::{Desk, Seat};
use tsn_serve::{Free, Gate, Gated, Source, serve_all, session};
use tsn_types::numbers::{Instant, PortId};

/// A new bridge.
fn new_bridge(alloc: Global) -> Result<Bridge, Fail>
    ensures { IfOk result (λ bridge. IsOpened bridge) }
{
    Ok(Bridge::new(alloc, Setup::standard(alloc))?)
}

/// A desk over a new bridge, and its seats.
fn opened(alloc: Global, seats: usize) -> Result<(Desk<Bridge>, Vec<Seat<Bridge>>), Fail>
    requires { (0 < seats) × (seats ≤ 1024) }
    ensures own { IfOk result (λ r. All (λ seat. IsSeatOf r.0 seat) r.1.items) }
    ensures opened { IfOk result (λ r. IsOpened (first_of r.0)) }
    ensures seats { IfOk result (λ r. vec_len r.1 ≡ seats) }
{
    let bridge = new_bridge(alloc)?;
    match Desk::new(alloc, bridge, seats) {
        Ok(opened) => Ok(opened),
        Err(_) => Err(Fail::from("out of memory")),
    }
}

/// A line before any hello; edits, of which one is of the session before the latest hello; a key over its limit, of
/// that session too; an empty line, one that is too long, and one without its end.
fn lines(alloc: Global) -> Result<Vec<u8>, Fail> {
    let mut input = Vec::from_slice(
        alloc,
        b"{\"do\":\"undo\",\"s\":1}\n{\"do\":\"hello\"}\n\
        {\"do\":\"create\",\"key\":\"gate 0\",\"record\":{\"base\":0,\"cycle\":1000000,\"extension\":0,\"invalid_rx\":false,\"ipv\":null,\"list\":[],\"octets_exceeded\":false,\"open\":true},\"s\":1}\n\
        {\"do\":\"hello\"}\n{\"do\":\"undo\",\"s\":1}\n{\"do\":\"show\",\"key\":\"gate 99\",\"s\":1}\n\
        {\"do\":\"show\",\"key\":\"gate 99\",\"s\":2}\n{\"do\":\"undo\",\"s\":2}\n\n",
    )?;
    for _ in 0..131073u32 {
        input.push(b'x')?;
    }
    input.extend_from_slice(b"\n{\"do\":\"list\",\"kind\":\"gate\",\"s\":2}\n{\"do\":\"undo\"")?;
    Ok(input)
}

const REPLIES: &'static [u8] =
    b"{\"refused\":5,\"why\":\"no_session\"}\n{\"session\":1}\n{\"entry\":1}\n{\"session\":2}\n\
    {\"refused\":5,\"why\":\"no_session\"}\n{\"refused\":5,\"why\":\"no_session\"}\n\
    {\"field\":\"key\",\"refused\":4,\"why\":\"range\"}\n{\"refused\":10,\"why\":\"nothing_to_undo\"}\n\
    {\"refused\":2,\"why\":\"syntax\"}\n{\"refused\":1,\"why\":\"too_long\"}\n{\"ids\":[0]}\n{\"refused\":2,\"why\":\"syntax\"}\n";

/// One session over a new bridge, read and written in pieces of so many bytes.
fn answers_well<R: Wait + Abort>(rt: &R, alloc: Global, most: usize) -> Result<(), Fail>
    requires { 1 ≤ most }
{
    let (desk, mut seats) = opened(alloc, 1)?;
    let mut reader = MemIn::new(lines(alloc)?, most, None);
    let mut writer = MemOut::new(Vec::new(alloc), most, None);
    let seat = seats.pop().unwrap();
    let (_, ended) = session(rt, alloc, &desk, seat, 1, &mut reader, &mut writer, &Free);
    same(rt, &ended, &Ok(()));
    assert_eq!(rt; writer.as_slice(), REPLIES, "in pieces of {most}");
    Ok(())
}

#[test]
fn a_session_in_memory(rt: HostRuntime) -> Result<(), Fail> {
    for most in [7usize, 100_000] {
        answers_well(&rt, rt.alloc(), most)?;
    }
    Ok(())
}

/// Edits that lie whole one behind the other, and a look between them.
const EDITS: &'static [u8] = b"{\"do\":\"hello\"}\n\
    {\"do\":\"create\",\"key\":\"gate 0\",\"record\":{\"base\":0,\"cycle\":1000000,\"extension\":0,\"invalid_rx\":false,\"ipv\":null,\"list\":[],\"octets_exceeded\":false,\"open\":true},\"s\":1}\n\
    {\"do\":\"undo\",\"s\":1}\n{\"do\":\"undo\",\"s\":1}\n\
    {\"do\":\"create\",\"key\":\"gate 0\",\"record\":{\"base\":0,\"cycle\":1000000,\"extension\":0,\"invalid_rx\":false,\"ipv\":null,\"list\":[],\"octets_exceeded\":false,\"open\":true},\"s\":1}\n\
    {\"do\":\"list\",\"kind\":\"gate\",\"s\":1}\n{\"do\":\"undo\",\"s\":1}\n{\"do\":\"undo\",\"s\":2}\n{\"do\":\"undo\",\"s\":1}\n";

const EDITED: &'static [u8] =
    b"{\"session\":1}\n{\"entry\":1}\n{\"entry\":2,\"of\":1}\n{\"refused\":10,\"why\":\"nothing_to_undo\"}\n\
    {\"entry\":3}\n{\"ids\":[0]}\n{\"entry\":4,\"of\":3}\n{\"refused\":5,\"why\":\"no_session\"}\n\
    {\"refused\":10,\"why\":\"nothing_to_undo\"}\n";

/// The same over a writer that holds replies back, so that lines are answered in lots.
#[test]
fn a_session_in_lots(rt: HostRuntime) -> Result<(), Fail> {
    let alloc = rt.alloc();
    let (desk, mut seats) = opened(alloc, 1)?;
    let mut reader = MemIn::new(Vec::from_slice(alloc, EDITS)?, 100_000, None);
    let mut writer = Buffered::new(alloc, MemOut::new(Vec::new(alloc), 100_000, None))?;
    let seat = seats.pop().unwrap();
    let (_, ended) = session(&rt, alloc, &desk, seat, 1, &mut reader, &mut writer, &Free);
    same(&rt, &ended, &Ok(()));
    assert_eq!(rt; writer.inner().as_slice(), EDITED);
    Ok(())
}

/// Two connections in memory, each of which says hello.
#[derive(Drop)]
struct Hellos {
    alloc: Global,
    given: AtomicU64,
}

impl Source for Hellos {
    type Reader = MemIn;

    type Writer = MemOut;

    fn next(&self) -> Option<(u32, MemIn, MemOut)> {
        let given = self.given.fetch_add(1, Ordering::SeqCst);
        if given >= 2 {
            return None;
        }
        let bytes = Vec::from_slice(self.alloc, b"{\"do\":\"hello\"}\n").ok()?;
        Some((
            given as u32 + 1,
            MemIn::new(bytes, 100, None),
            MemOut::new(Vec::new(self.alloc), 100, None),
        ))
    }
}

/// Holds the first connection's first turn until the second connection's first reply is out, but not for ever.
#[derive(Drop)]
struct Held<'a, R: Clock> {
    rt: &'a R,
    answered: &'a AtomicU64,
    gave_up: &'a AtomicU64,
}

impl<'a, R: Clock> Gate for Held<'a, R> {
    fn before(&self, connection: u32) {
        if connection != 1 {
            return;
        }
        for _ in 0..10_000u32 {
            if self.answered.load(Ordering::SeqCst) == 1 {
                return;
            }
            thread::sleep(self.rt, Duration::from_millis(1));
        }
        self.gave_up.store(1, Ordering::SeqCst);
    }

    fn answered(&self, connection: u32) {
        if connection == 2 {
            self.answered.store(1, Ordering::SeqCst);
        }
    }
}

/// Serves two connections with two seats, beside a probe of port 1, and tells whether the second was answered and the
/// first gave up.
fn serve_two<R: Wait + Threads + Clock + Abort + Sync>(
    rt: &R,
    alloc: Global,
) -> Result<(u64, u64), Fail> {
    let (desk, seats) = opened(alloc, 3)?;
    let source = Hellos {
        alloc,
        given: AtomicU64::new(0),
    };
    let answered = AtomicU64::new(0);
    let gave_up = AtomicU64::new(0);
    let gate = Held {
        rt,
        answered: &answered,
        gave_up: &gave_up,
    };
    let probes = [(PortId::new(1).unwrap(), Instant::new(9).unwrap())];
    let served = serve_all(
        rt,
        alloc,
        &desk,
        seats,
        &source,
        &Gated { gate: &gate },
        &probes,
    );
    same(rt, &served.is_ok(), &true);
    Ok((
        answered.load(Ordering::SeqCst),
        gave_up.load(Ordering::SeqCst),
    ))
}

#[test]
fn two_sessions_at_once(rt: HostRuntime) -> Result<(), Fail> {
    same(&rt, &serve_two(&rt, rt.alloc())?, &(1, 0));
    Ok(())
}
