//! A bridge goes on from a journal file.
ghost use Rattle.std.specs.Prelude.{◌≡◌, ◌≢◌, ◌⊎◌, ◌↔◌, ◌<◌, ℕ, List, [], ◌∷◌, Option, Err, IfOk, IfErr, IsTrue, OnOk, length, option_map, true};
ghost use Rattle.std.specs.Bool.{OnTrue, OnFalse};
ghost use Rattle.std.specs.Io.KnownBytes.{IsAtEnd};
ghost use Rattle.tsn_types.specs.declared.refusals.Refusal.TheVariants as refusals;
ghost use Rattle.tsn_bridge.specs.Reached.{IsReached};
ghost use Rattle.tsn_recorded.specs.Text.{Recorded};
ghost use Rattle.tsn_resuming.specs.First.{Finds, setup_in};
ghost use Rattle.tsn_resuming.specs.Resuming.{Begins, Fails, GoesOn, HasBegun, HasNoLine, OpensNone, StopsAt, StopsReading};
ghost use Rattle.tsn_resuming.specs.Standing.{IsEnded, IsFed, IsRefused, IsStepped, IsThrough, IsUnderWay};
ghost use Rattle.tsn_resuming.specs.declared.resuming.StartFault.TheVariants.{Memory, Read, Refused, Setup};

use crate::first::{NoSetup, setup_in};
use crate::watching::Watcher;
use std::alloc::{AllocError, Global};
use tsn_bridge::bridge::Bridge;
use tsn_bytes::ByteIn;
use tsn_initial::bridge_of;
use tsn_recorded::{Chain, End, Reader};
use tsn_replay::replay::replay;
use tsn_types::refusals::Refusal;
use tsn_wire::command_of;

// How many bytes are asked for at once.
const PIECE: usize = 65_536;

/// A bridge that goes on from a journal file.
#[derive(Drop)]
pub struct Resumed {
    pub bridge: Bridge,
    /// The digest from which the next line goes on.
    pub chain: Chain,
    /// How many lines of the file verify, from its first on.
    pub lines: u64,
    /// How many bytes of the file these are.
    pub good: u64,
    /// What lies behind them.
    pub end: End,
}

/// Why no bridge goes on from a file.
#[derive(Clone, Copy, Debug, PartialEq, Eq)]
pub enum StartFault {
    /// A read failed.
    Read,
    /// Memory was wanted and not there.
    Memory,
    /// No first line verifies, or its command is no first command.
    NoJournal,
    /// The first command is one of another version.
    OtherVersion,
    /// A setup was given, and the first command has another one.
    OtherSetup,
    /// The setup in the first command is refused.
    Setup(Refusal),
    /// The command of this line, counted from 1, does not read as a command or is refused.
    Refused { line: u64, why: Refusal },
}

// Whether two texts are one.
fn is_same(one: &[u8], other: &[u8]) -> bool
    ensures { IsTrue result ↔ (one.now ≡ other.now) }
{
    one == other
}

// Why a command that has no setup opens no bridge.
fn fault_of_first(why: NoSetup) -> StartFault
    ensures { (command : List ℕ) (given : Option (List ℕ)) → Finds (Err why) (setup_in command) → OpensNone given command result }
{
    match why {
        NoSetup::NoJournal => StartFault::NoJournal,
        NoSetup::OtherVersion => StartFault::OtherVersion,
        NoSetup::Memory => StartFault::Memory,
    }
}

// The fault of a setup that is refused.
fn fault_of_setup(why: Refusal) -> StartFault
    ensures { (result ≡ Memory) ⊎ ((result ≡ Setup why) × (why ≢ refusals.Memory)) }
{
    match why {
        Refusal::Memory => StartFault::Memory,
        why => StartFault::Setup(why),
    }
}

// The fault of a line that is refused.
fn fault_of_line(line: u64, why: Refusal) -> StartFault
    ensures { (result ≡ Memory) ⊎ ((result ≡ Refused line why) × (why ≢ refusals.Memory)) }
{
    match why {
        Refusal::Memory => StartFault::Memory,
        why => StartFault::Refused { line, why },
    }
}

// The bridge that the first command's setup opens, where this is the one that is given, if one is.
#[tactic(auto, using(tsn_bridge::proofs::Reaching::opened_is_reached))]
fn begin<W: Watcher>(
    alloc: Global,
    first: &[u8],
    stamp: &[u8],
    given: Option<&[u8]>,
    watcher: &mut W,
) -> Result<Bridge, StartFault>
    ensures begun { IfOk result (λ bridge. Begins (option_map (λ own. own.now) given.entry) first.now bridge) }
    ensures reached { IfOk result IsReached }
    ensures fault { IfErr result (λ why. OpensNone (option_map (λ own. own.now) given.entry) first.now why) }
{
    let setup = match setup_in(alloc, first) {
        Ok(setup) => setup,
        Err(why) => return Err(fault_of_first(why)),
    };
    if let Some(own) = given {
        if !is_same(own, &setup) {
            return Err(StartFault::OtherSetup);
        }
    }
    let bridge = match bridge_of(alloc, &setup) {
        Ok(bridge) => bridge,
        Err(why) => return Err(fault_of_setup(why)),
    };
    watcher.began(&setup, stamp);
    Ok(bridge)
}

// Reads a further command and steps the bridge by it.
#[tactic(auto, unfolding(crate::specs::Standing::asked))]
fn step(alloc: Global, bridge: &mut Bridge, command: &[u8]) -> Result<(), Refusal>
    ensures stepped { OnOk result (IsStepped bridge.old command.now bridge.new) }
    ensures reached { IsReached bridge.old → OnOk result (IsReached bridge.new) }
    ensures refused { IfErr result (λ why. (why ≡ refusals.Memory) ⊎ IsRefused bridge.old command.now why) }
{
    let ask = command_of(alloc, command)?;
    replay(bridge, ask)
}

// Steps the bridge by each line that is at hand.
fn step_lines<W: Watcher>(
    alloc: Global,
    reader: &mut Reader,
    bridge: &mut Bridge,
    watcher: &mut W,
) -> Result<(), StartFault>
    ensures through { (before now : Option (List ℕ)) (setup : List ℕ) →
        IsUnderWay before now setup reader.old bridge.old → OnOk result (IsThrough before now setup reader.new bridge.new) }
    ensures reached { IsReached bridge.old → OnOk result (IsReached bridge.new) }
    ensures fault { (before now : Option (List ℕ)) (setup : List ℕ) →
        IsUnderWay before now setup reader.old bridge.old → IfErr result (StopsAt before now) }
{
    'lines: while reader.advance() {
        if let Err(why) = step(alloc, bridge, reader.command()) {
            return Err(fault_of_line(reader.lines(), why));
        }
        watcher.stepped(bridge, reader.stamp(), reader.command());
    }
    Ok(())
}

// So many bytes, which are 0.
fn zeros(alloc: Global, count: usize) -> Result<Vec<u8>, AllocError>
    ensures { IfOk result (λ bytes. length bytes.items ≡ count) }
{
    vec![in alloc; 0u8; count]
}

// Feeds the reader the next piece of the file; false where there is none.
fn feed<R: ByteIn>(file: &mut R, piece: &mut [u8], reader: &mut Reader) -> Result<bool, StartFault>
    requires { 0 < length piece.old }
    ensures fed { (before : Option (List ℕ)) (rs : List Recorded) →
        IsFed before (R.remaining file.old) rs reader.old → OnOk result (IsFed before (R.remaining file.new) rs reader.new) }
    ensures end { IfOk result (λ more. OnFalse more (IsEnded (R.remaining file.old) (R.remaining file.new))) }
    ensures stays { IfOk result (λ more. OnFalse more (reader.new ≡ reader.old)) }
    ensures worked { OnOk result (R.has_failed file.new ≡ R.has_failed file.old) }
    ensures fault { IfErr result (λ why. ((why ≡ Read) × (R.has_failed file.new ≡ true)) ⊎ (why ≡ Memory)) }
{
    let Ok(count) = file.pull(piece) else {
        return Err(StartFault::Read);
    };
    if count == 0 {
        return Ok(false);
    }
    match reader.feed(&piece[..count]) {
        Ok(()) => Ok(true),
        Err(_) => Err(StartFault::Memory),
    }
}

// Feeds the reader until its first line is at hand; false where none verifies.
fn find_first<R: ByteIn>(
    file: &mut R,
    piece: &mut [u8],
    reader: &mut Reader,
) -> Result<bool, StartFault>
    requires { 0 < length piece.old }
    ensures found { (before : Option (List ℕ)) → IsFed before (R.remaining file.old) [] reader.old →
        IfOk result (λ found. OnTrue found (IsFed before (R.remaining file.new) (reader.new.latest ∷ []) reader.new)) }
    ensures none { (before : Option (List ℕ)) → IsFed before (R.remaining file.old) [] reader.old →
        IfOk result (λ found. OnFalse found (HasNoLine before (R.remaining file.new))) }
    ensures worked { OnOk result (R.has_failed file.new ≡ R.has_failed file.old) }
    ensures fault { IfErr result (λ why. ((why ≡ Read) × (R.has_failed file.new ≡ true)) ⊎ (why ≡ Memory)) }
{
    for _made in 0..u64::MAX {
        if reader.advance() {
            return Ok(true);
        }
        if !feed(file, piece, reader)? {
            return Ok(false);
        }
    }
    Err(StartFault::Memory)
}

// The bridge that the first line of the file opens.
fn begin_reading<R: ByteIn, W: Watcher>(
    alloc: Global,
    file: &mut R,
    piece: &mut [u8],
    reader: &mut Reader,
    given: Option<&[u8]>,
    watcher: &mut W,
) -> Result<Bridge, StartFault>
    requires { 0 < length piece.old }
    ensures begun { (before : Option (List ℕ)) → IsFed before (R.remaining file.old) [] reader.old →
        IfOk result (HasBegun before (R.remaining file.new) (option_map (λ own. own.now) given.entry) reader.new) }
    ensures reached { IfOk result IsReached }
    ensures worked { OnOk result (R.has_failed file.new ≡ R.has_failed file.old) }
    ensures fault { (before : Option (List ℕ)) → IsFed before (R.remaining file.old) [] reader.old →
        IfErr result (Fails before (R.remaining file.new) (R.has_failed file.new) (option_map (λ own. own.now) given.entry)) }
{
    if !find_first(file, piece, reader)? {
        return Err(StartFault::NoJournal);
    }
    begin(alloc, reader.command(), reader.stamp(), given, watcher)
}

// Reads the rest of the file, and steps the bridge by each line.
fn step_all<R: ByteIn, W: Watcher>(
    alloc: Global,
    file: &mut R,
    piece: &mut [u8],
    reader: &mut Reader,
    bridge: &mut Bridge,
    watcher: &mut W,
) -> Result<(), StartFault>
    requires { 0 < length piece.old }
    ensures through { (before : Option (List ℕ)) (setup : List ℕ) →
        IsUnderWay before (R.remaining file.old) setup reader.old bridge.old →
        OnOk result (IsThrough before (R.remaining file.new) setup reader.new bridge.new × IsAtEnd (R.remaining file.new)) }
    ensures reached { IsReached bridge.old → OnOk result (IsReached bridge.new) }
    ensures worked { OnOk result (R.has_failed file.new ≡ R.has_failed file.old) }
    ensures fault { (before : Option (List ℕ)) (setup : List ℕ) →
        IsUnderWay before (R.remaining file.old) setup reader.old bridge.old →
        IfErr result (StopsReading before (R.remaining file.new) (R.has_failed file.new)) }
{
    for _made in 0..u64::MAX {
        step_lines(alloc, reader, bridge, watcher)?;
        if !feed(file, piece, reader)? {
            return Ok(());
        }
    }
    Err(StartFault::Memory)
}

/// A bridge that goes on from a journal file: it begins with the setup in the first line, which must be the one that is
/// given, byte for byte, if one is; and steps by the command of each further line that verifies. All of the file is
/// read. How it ends is told in `end`, and is no fault. The watcher is told of each line as it was stepped. Memory is
/// that of the bridge, of a piece, and at most thrice the longest line.
pub fn resume<R: ByteIn, W: Watcher>(
    alloc: Global,
    file: &mut R,
    setup: Option<&[u8]>,
    watcher: &mut W,
) -> Result<Resumed, StartFault>
    ensures goes_on { IfOk result (GoesOn (R.remaining file.old) (R.remaining file.new) (option_map (λ own. own.now) setup.entry)) }
    ensures reached { IfOk result (λ resumed. IsReached resumed.bridge) }
    ensures worked { OnOk result (R.has_failed file.new ≡ R.has_failed file.old) }
    ensures fault { IfErr result (Fails (R.remaining file.old) (R.remaining file.new) (R.has_failed file.new)
        (option_map (λ own. own.now) setup.entry)) }
{
    let Ok(mut piece) = zeros(alloc, PIECE) else {
        return Err(StartFault::Memory);
    };
    let mut reader = Reader::new(alloc);
    let mut bridge = match begin_reading(alloc, file, &mut piece, &mut reader, setup, watcher) {
        Ok(bridge) => bridge,
        Err(why) => return Err(why),
    };
    step_all(alloc, file, &mut piece, &mut reader, &mut bridge, watcher)?;
    Ok(Resumed {
        bridge,
        chain: reader.chain(),
        lines: reader.lines(),
        good: reader.good(),
        end: reader.end(),
    })
}
