//! One connection over a bridge that threads share: its lines are calls of one seat.
//! It relies on the loop over lines, on the turns of a desk, on the reading of a line and on the text of a reply.
ghost use Rattle.std.specs.Prelude.{◌≡◌, ◌≢◌, ◌⊎◌, ◌^◌, ◌<◌, ◌≤◌, ◌↔◌, ℕ, List, Option, None, Result, Ok, Err, true, IsTrue, IfOk, IfErr, IfNone, OnOk, OnErr, IsErrOf, option_map, vec_len};
ghost use Rattle.std.specs.Io.KnownBytes.{Appends};
ghost use Rattle.tsn_types.specs.declared.refusals.Refusal.{Refusal as AnyRefusal};
ghost use Rattle.tsn_commands.specs.declared.command.Ask.{Ask as AnyAsk};
ghost use Rattle.tsn_bytes.specs.declared.bytes.Fault.TheVariants.{Write, Memory, Exhausted};
ghost use Rattle.tsn_desk.specs.Desks.{IsSeatOf, id_of, first_of};
ghost use Rattle.tsn_serve.specs.Answers.{MayRead, Replies};
ghost use Rattle.tsn_serve.specs.Talk.{MayAsk, Calls, Asks, TakesUp, Tires, Talks, BreaksTalk, Goes, IsMarked, Told, caller_of, latest_after};
ghost use Rattle.tsn_serve.specs.Lots.{AnswersFront, IsFront, IsLot};
ghost use Rattle.tsn_serve.specs.Outcomes.{Outcome, moment, most_reads};

use crate::gate::Gate;
use crate::lots::{MOST_REPLIES, ReadLine, front_line, is_brief, read_lot};
use crate::responder::{Ended, Responder, answer_lines};
use crate::script::{READS, read_line};
use std::alloc::Global;
use std::marker::Model;
use std::sync::Wait;
use tsn_bridge::bridge::Bridge;
use tsn_bridge::command::{Ask, Command};
use tsn_bridge::reply::Reply;
use tsn_bytes::{ByteIn, ByteOut, Fault};
use tsn_desk::desk::{Desk, Seat, Standing};
use tsn_desk::machine::{Nobody, Witness};
use tsn_encoding::ShortText;
use tsn_replies::write_reply_by;
use tsn_types::refusals::Refusal;

// The session of the latest hello or resume, once this reply came.
fn latest_after(latest: Option<u32>, reply: &Reply) -> Option<u32>
    ensures { result ≡ latest_after latest reply.now }
{
    match reply {
        Reply::Session { session } | Reply::Known { session } => Some(*session),
        _ => latest,
    }
}

// Whether a connection acts as the session of this command from its reply on.
fn takes_up(command: &Command) -> bool
    ensures { IsTrue result ↔ TakesUp command.now }
{
    matches!(command, Command::Hello { .. } | Command::Resume)
}

/// One end of a connection, which answers lines by turns of its seat, each attended by the witness. A contract sees
/// what a caller can tell of it.
pub struct Connection<'a, R: Wait, G: Gate, W: Witness<Bridge>> {
    rt: &'a R,
    desk: &'a Desk<Bridge>,
    gate: &'a G,
    witness: W,
    number: u32,
    // None only while it has its turn.
    seat: Option<Seat<Bridge>>,
    // The session of its latest hello or resume.
    latest: Option<u32>,
    // Whether it has locked the door.
    standing: Standing,
    // What a reply is spelled in.
    text: ShortText,
}

impl<'a, R: Wait, G: Gate, W: Witness<Bridge>> Model for Connection<'a, R, G, W> {
    ghost use Rattle.tsn_serve.specs.Talk.{Caller};
    ghost use Rattle.tsn_serve.specs.Held.{shown, IsHeld, caller_code};

    ghost Value = { Caller };

    ghost coded = { caller_code };

    ghost view = { λ c. shown c.desk.now c.seat c.latest };

    ghost invariant = { λ c. IsHeld c.desk.now c.seat };
}

impl<'a, R: Wait, G: Gate, W: Witness<Bridge> + Drop> Connection<'a, R, G, W> {
    /// With this seat, and no session yet.
    pub fn new(
        rt: &'a R,
        desk: &'a Desk<Bridge>,
        seat: Seat<Bridge>,
        number: u32,
        gate: &'a G,
        witness: W,
    ) -> Connection<'a, R, G, W>
        requires { IsSeatOf desk.now seat }
        ensures { result ≡ caller_of desk.now seat None }
    {
        Connection {
            rt,
            desk,
            gate,
            witness,
            number,
            seat: Some(seat),
            latest: None,
            standing: Standing::AtTheDoor,
            text: ShortText::new(),
        }
    }

    /// The seat, at the end.
    pub fn into_seat(self, desk: &Desk<Bridge>) -> Seat<Bridge>
        requires { (self.desk ≡ id_of desk.now) × (self.first ≡ first_of desk.now) }
        ensures own { IsSeatOf desk.now result }
        ensures same { self.entry ≡ caller_of desk.now result self.entry.latest }
    {
        let Connection {
            rt: _,
            desk: _,
            gate: _,
            witness: _,
            number: _,
            seat,
            latest: _,
            standing: _,
            text: _,
        } = self;
        let Some(seat) = seat else { unreachable!() };
        seat
    }

    // Whether the command is a hello or a resume, or of the session of the latest one.
    fn may_ask(&self, ask: &Ask) -> bool
        ensures { IsTrue result ↔ MayAsk self.now.latest ask.now }
    {
        takes_up(&ask.command) || self.latest == Some(ask.session)
    }

    // Makes a call, and gives what the witness says of it. It is refused where no ticket is left.
    #[inline(always)]
    fn call(&mut self, ask: Ask) -> Result<(Reply, Option<W::Mark>), Fault>
        ensures ok { IfOk result (λ r. Calls self.old ask r.0 self.new) }
        ensures mark { IfOk result (λ r. IsMarked W.marks (Ok ask) r.0 r.1) }
        ensures no_mark { IfOk result (λ r. IfNone r.1 (self.new ≡ self.old)) }
        ensures fault { IfErr result (λ e. e ≡ Exhausted) }
        ensures tired { OnErr result ((2 ^ 63 ≤ self.new.tickets) × (self.new ≡ record self.old { tickets = self.new.tickets })) }
    {
        self.gate.before(self.number);
        let Some(seat) = self.seat.take() else {
            unreachable!()
        };
        let (seat, turned) = self
            .desk
            .turn_from(self.rt, self.standing, seat, ask, &mut self.witness);
        self.seat = Some(seat);
        match turned {
            Ok((turn, mark)) => {
                self.latest = latest_after(self.latest, &turn.reply);
                Ok((turn.reply, Some(mark)))
            }
            Err(_) => Err(Fault::Exhausted),
        }
    }

    // The reply to what a line was read as, and what the witness says of the call for it: none where it is refused with
    // no call.
    #[inline(always)]
    fn reply_to(&mut self, read: Result<Ask, Refusal>) -> Result<(Reply, Option<W::Mark>), Fault>
        ensures ok { IfOk result (λ r. Replies Asks self.old read r.0 self.new) }
        ensures mark { IfOk result (λ r. IsMarked W.marks read r.0 r.1) }
        ensures no_mark { IfOk result (λ r. IfNone r.1 (self.new ≡ self.old)) }
        ensures fault { IfErr result (λ e. e ≡ Exhausted) }
        ensures tired { OnErr result (Tires self.old read self.new) }
    {
        match read {
            Ok(ask) => {
                if self.may_ask(&ask) {
                    self.call(ask)
                } else {
                    Ok((Reply::Refused(Refusal::NoSession), None))
                }
            }
            Err(refusal) => Ok((Reply::Refused(refusal), None)),
        }
    }

    /// The reply to a line, none being one that is too long, and what the witness says of the call for it: none where
    /// it is refused with no call.
    pub fn reply(
        &mut self,
        alloc: Global,
        line: Option<&[u8]>,
    ) -> Result<(Reply, Option<W::Mark>), Fault>
        ensures ok { IfOk result (λ r. Told W.marks self.old (option_map (λ s. s.now) line.entry) r.0 r.1 self.new) }
        ensures fault { IfErr result (λ e. e ≡ Exhausted) }
        ensures tired { OnErr result ((read : Result AnyAsk AnyRefusal) × MayRead (option_map (λ s. s.now) line.entry) read
            × Tires self.old read self.new) }
    {
        self.reply_to(read_line(alloc, line))
    }

    // Answers what a line was read as.
    #[inline(always)]
    fn answer_read<O: ByteOut>(&mut self, read: Result<Ask, Refusal>, writer: &mut O) -> Ended
        ensures ok { OnOk result ((text : List ℕ)
            × ((line : Option (List ℕ)) → MayRead line read → Talks self.old line text self.new)
            × Appends (O.taken writer.old) (O.taken writer.new) text) }
        ensures worked { result ≢ Err Write → O.has_failed writer.new ≡ O.has_failed writer.old }
        ensures fault { IfErr result (λ e. (e ≡ Write) ⊎ (e ≡ Exhausted)) }
        ensures failed { IsErrOf result Write → O.has_failed writer.new ≡ true }
        ensures broken { IfErr result (λ e. (part : List ℕ)
            × ((line : Option (List ℕ)) → MayRead line read → BreaksTalk self.old line e part self.new)
            × Appends (O.taken writer.old) (O.taken writer.new) part) }
    {
        let (reply, _) = match self.reply_to(read) {
            Ok(replied) => replied,
            Err(fault) => return Err(fault),
        };
        let written = write_reply_by(writer, &mut self.text, &reply);
        if written.is_ok() {
            self.gate.answered(self.number);
        }
        written
    }

    // Answers what the first line of these bytes was read as, and says how many bytes it has.
    #[inline(always)]
    fn answer_one<O: ByteOut>(
        &mut self,
        read: Result<Ask, Refusal>,
        count: usize,
        _bytes: &[u8],
        writer: &mut O,
    ) -> Result<usize, Fault>
        requires { IsFront _bytes.now count read }
        ensures front { AnswersFront Talks BreaksTalk self.old _bytes.now (O.taken writer.old) (O.taken writer.new) result self.new }
        ensures worked { result ≢ Err Write → O.has_failed writer.new ≡ O.has_failed writer.old }
        ensures failed { IsErrOf result Write → O.has_failed writer.new ≡ true }
    {
        match self.answer_read(read, writer) {
            Ok(()) => Ok(count),
            Err(fault) => Err(fault),
        }
    }

    // Opens the door, where it has locked it, unless it may stay.
    fn leave_unless(&mut self, may_stay: bool)
        ensures { self.new ≡ self.old }
    {
        if self.standing == Standing::Inside && !may_stay {
            self.standing = Standing::AtTheDoor;
            self.desk.open_door();
        }
    }

    // Answers the lines of a lot, one behind the other, and says how many bytes they have. Where one may have a long
    // reply the door is opened first.
    fn answer_each<O: ByteOut>(
        &mut self,
        lot: Vec<ReadLine>,
        _bytes: &[u8],
        writer: &mut O,
    ) -> Result<usize, Fault>
        requires { (0 < vec_len lot) × ((rest : List ℕ) × IsLot _bytes.now lot.items rest) }
        ensures front { AnswersFront Talks BreaksTalk self.old _bytes.now (O.taken writer.old) (O.taken writer.new) result self.new }
        ensures worked { result ≢ Err Write → O.has_failed writer.new ≡ O.has_failed writer.old }
        ensures failed { IsErrOf result Write → O.has_failed writer.new ≡ true }
    {
        let mut done = 0;
        'lines: for line in lot {
            let ReadLine {
                read,
                count,
                is_brief,
            } = line;
            self.leave_unless(is_brief);
            if let Err(fault) = self.answer_read(read, writer) {
                return Err(fault);
            }
            done += count;
        }
        Ok(done)
    }

    // Whether two of the lines or more take turns, for which the door is worth locking.
    fn takes_turns(&self, lot: &[ReadLine]) -> bool {
        let mut takes_one = false;
        for line in lot {
            let takes_turn = match &line.read {
                Ok(ask) => line.is_brief && self.may_ask(ask),
                Err(_) => false,
            };
            if takes_turn && takes_one {
                return true;
            }
            takes_one = takes_one || takes_turn;
        }
        false
    }

    // Locks the door where turns follow each other, so that no other connection's lot comes between.
    fn enter_for(&mut self, lot: &[ReadLine])
        ensures { self.new ≡ self.old }
    {
        if self.takes_turns(lot) {
            self.desk.lock_door(self.rt);
            self.standing = Standing::Inside;
        }
    }

    // Answers what the first line of these bytes was read as, and the lines that lie whole behind it where their
    // replies are short and nothing in between may wait.
    #[inline(always)]
    fn answer_from<O: ByteOut>(
        &mut self,
        alloc: Global,
        read: Result<Ask, Refusal>,
        count: usize,
        bytes: &[u8],
        writer: &mut O,
    ) -> Result<usize, Fault>
        requires { IsFront bytes.now count read }
        ensures front { AnswersFront Talks BreaksTalk self.old bytes.now (O.taken writer.old) (O.taken writer.new) result self.new }
        ensures worked { result ≢ Err Write → O.has_failed writer.new ≡ O.has_failed writer.old }
        ensures failed { IsErrOf result Write → O.has_failed writer.new ≡ true }
    {
        let is_brief = is_brief(&read);
        let is_alone = count == bytes.len() || !is_brief;
        if is_alone || self.gate.may_wait() || !writer.has_room(MOST_REPLIES) {
            return self.answer_one(read, count, bytes, writer);
        }
        let first = ReadLine {
            read,
            count,
            is_brief,
        };
        match read_lot(alloc, first, bytes) {
            Ok(lot) => {
                self.enter_for(lot.as_slice());
                let answered = self.answer_each(lot, bytes, writer);
                self.leave_unless(false);
                answered
            }
            Err(first) => self.answer_one(first.read, first.count, bytes, writer),
        }
    }
}

impl<'a, R: Wait, G: Gate, W: Witness<Bridge> + Drop> Responder for Connection<'a, R, G, W> {
    ghost answers = { Talks };

    ghost breaks = { BreaksTalk };

    fn answer<O: ByteOut>(&mut self, alloc: Global, line: Option<&[u8]>, writer: &mut O) -> Ended {
        self.answer_read(read_line(alloc, line), writer)
    }

    fn answer_front<O: ByteOut>(
        &mut self,
        alloc: Global,
        bytes: &[u8],
        writer: &mut O,
    ) -> Result<Option<usize>, Fault> {
        let Some(line) = front_line(bytes) else {
            return Ok(None);
        };
        let read = read_line(alloc, Some(line));
        match self.answer_from(alloc, read, line.len() + 1, bytes, writer) {
            Ok(count) => Ok(Some(count)),
            Err(fault) => Err(fault),
        }
    }
}

/// Answers each line that the reader gives, with at most 2^32 reads: by a call of the seat, which waits for its turn,
/// or by a refusal in reading with no call. Refusal 5 is answered with no call where the line is no hello and no resume
/// and its session is not that of the connection's latest one. The seat makes no other call. On `Ok` all bytes were
/// read, and what was written is the text of the replies to their lines, in order, and nothing else. A fault is as that
/// of a script, or `Exhausted` where no ticket was left for the call of a line: then the lines before it were answered.
/// The gate is told of this connection ahead of each turn and after each reply.
pub fn session<R: Wait, I: ByteIn, O: ByteOut, G: Gate>(
    rt: &R,
    alloc: Global,
    desk: &Desk<Bridge>,
    seat: Seat<Bridge>,
    connection: u32,
    reader: &mut I,
    writer: &mut O,
    gate: &G,
) -> (Seat<Bridge>, Ended)
    requires { IsSeatOf desk.now seat }
    ensures own { IsSeatOf desk.now result.0 }
    ensures goes { Goes (caller_of desk.now seat None) (caller_of desk.now result.0 None) }
    ensures outcome { (latest : Option ℕ) × Outcome Talks BreaksTalk most_reads
        (moment I.remaining I.calls I.has_failed O.taken O.pending O.has_failed
        (caller_of desk.now seat None) reader.old writer.old)
        (moment I.remaining I.calls I.has_failed O.taken O.pending O.has_failed
        (caller_of desk.now result.0 latest) reader.new writer.new)
        result.1 }
    ensures untouched { IsErrOf result.1 Memory → (reader.new ≡ reader.old) × (writer.new ≡ writer.old) }
{
    let mut end = Connection::new(rt, desk, seat, connection, gate, Nobody);
    let ended = answer_lines(alloc, &mut end, reader, writer, READS);
    (end.into_seat(desk), ended)
}
