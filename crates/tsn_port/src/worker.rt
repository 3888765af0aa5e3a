//! A worker of one port: its mirror, kept up with a bridge that threads share.
ghost use Rattle.std.specs.Prelude.{◌≡◌, ◌⊎◌, ◌+◌, ◌^◌, ◌<◌, ◌≤◌, ◌↔◌, ℕ, false, IfErr, IfOk, IsErrOf, IsTrue, OnErr, OnOk, MatchResult};
ghost use Rattle.tsn_types.specs.declared.keys.Key.TheVariants.{Port};
ghost use Rattle.tsn_types.specs.declared.records.Record.TheVariants as records;
ghost use Rattle.tsn_types.specs.declared.refusals.Field.TheVariants as fields;
ghost use Rattle.tsn_types.specs.declared.refusals.Refusal.TheVariants.{Range};
ghost use Rattle.tsn_desk.specs.Desks.{HasTurned, IsSeatOf, first_of, made, seen, tickets};
ghost use Rattle.tsn_machine.specs.History.{Begins};
ghost use Rattle.tsn_commands.specs.declared.reply.Reply.TheVariants.{Shown, Refused, Entries as EntriesOf};
ghost use Rattle.tsn_bridge.specs.Reached.{IsReached};
ghost use Rattle.tsn_bridge.specs.Turns.{Turns};
ghost use Rattle.tsn_port.specs.Starting.{AnswersHello, AnswersLook, AnswersSince, Gives, HasRead, IsGivenIn, Looked, SaidHello, since};
ghost use Rattle.tsn_port.specs.Workers.{CallsOnce, EndsIn, GoesOn, IsPast, IsRound, IsStart, IsStartFault, IsWorkerOf, TellsGates, entries_behind, last_seen, port_of};

use crate::mirror::Mirror;
use std::snapshot::Snapshot;
use std::sync::Wait;
use tsn_bridge::bridge::Bridge;
use tsn_bridge::command::{Ask, Command};
use tsn_bridge::reply::Reply;
use tsn_desk::desk::{Desk, Seat, Turn};
use tsn_desk::machine::{Nobody, Witness};
use tsn_journal::entries::Entries;
use tsn_types::keys::Key;
use tsn_types::names::SessionName;
use tsn_types::numbers::{Instant, PortId};
use tsn_types::records::{PortGates, Record};
use tsn_types::refusals::Refusal;

/// Why a worker does not start, or a round gives no gates.
#[derive(Clone, Copy, Debug, PartialEq, Eq)]
pub enum RoundFault {
    /// The instant comes before the last act on the port.
    Past,
    /// A growth was refused.
    Memory,
    /// No ticket is left at the desk.
    Exhausted,
    /// The bridge refused a call of the start: no session is left (4, field `session`), or the port is over the limits
    /// (4, field `key`).
    Refused(Refusal),
}

/// A mirror of a port that follows a bridge behind a desk, by a seat that is handed in at each call. It keeps its
/// session, the place of its last turn, and whether memory was wanting in that.
#[derive(Drop)]
pub struct PortWorker {
    mirror: Mirror,
    session: u32,
    place: u64,
    is_short: bool,
    last: Snapshot<Seat<Bridge>>,
}

/// What a seat was told in a call, with the seat.
type Told<T> = (Seat<Bridge>, Result<T, RoundFault>);

impl PortWorker {
    /// A worker of the port, by three turns of the seat: a hello by the name, which the witness attends, a look at the
    /// port, and all entries of the journal. It waits for the turns of others. Refused, the seat comes back with the
    /// fault: the port is over the limits, no session is left, no ticket is left, or memory was wanting. A session that
    /// was given out stays given out.
    pub fn start<R: Wait, W: Witness<Bridge>>(
        rt: &R,
        desk: &Desk<Bridge>,
        seat: Seat<Bridge>,
        port: PortId,
        name: Option<SessionName>,
        witness: &mut W,
    ) -> Result<(Seat<Bridge>, PortWorker), (Seat<Bridge>, RoundFault)>
        requires { IsSeatOf desk.now seat × IsReached (first_of desk.now) }
        ensures goes { MatchResult result (λ r. GoesOn desk.now seat r.0) (λ e. GoesOn desk.now seat e.0) }
        ensures worker { IfOk result (λ r. IsWorkerOf desk.now r.1 × (port_of r.1 ≡ port) × (r.1.is_short ≡ false)) }
        ensures last { IfOk result (λ r. (last_seen r.1 ≡ seen r.0) × IsStart name seat r.0 r.1) }
        ensures fault { IfErr result (λ e. IsStartFault desk.now port e.1 e.0) }
    {
        let _ = port.get();
        let (seat, said) = say_hello(rt, desk, seat, name, witness);
        let session = match said {
            Ok(session) => session,
            Err(fault) => return Err((seat, fault)),
        };
        let (seat, looked) = look(rt, desk, seat, session, port);
        let shown = match looked {
            Ok(shown) => shown,
            Err(fault) => return Err((seat, fault)),
        };
        let (seat, read) = read_behind(rt, desk, seat, session, 0);
        let (entries, place) = match read {
            Ok(told) => told,
            Err(fault) => return Err((seat, fault)),
        };
        let Ok(mirror) = Mirror::of(port, &shown, &entries) else {
            return Err((seat, RoundFault::Memory));
        };
        let worker = PortWorker {
            mirror,
            session,
            place,
            is_short: false,
            last: Snapshot::of(&seat),
        };
        Ok((seat, worker))
    }

    /// The worker's port.
    pub fn port(&self) -> PortId
        ensures { result ≡ port_of self.now }
    {
        self.mirror.port()
    }

    /// The gates of the port at an instant, in the state that ends the history that the seat has then seen. Where
    /// nothing came since the worker's last turn, and memory was not wanting in that, the mirror answers, and the call
    /// neither waits nor takes memory. Else it makes one turn, for the entries behind the mirror's front.
    pub fn round<R: Wait>(
        &mut self,
        rt: &R,
        desk: &Desk<Bridge>,
        seat: Seat<Bridge>,
        t: Instant,
    ) -> (Seat<Bridge>, Result<u8, RoundFault>)
        requires { IsSeatOf desk.now seat × IsWorkerOf desk.now self.old × Begins (last_seen self.old) (seen seat) }
        ensures goes { GoesOn desk.now seat result.0 }
        ensures worker { IsWorkerOf desk.now self.new × Begins (last_seen self.new) (seen result.0)
            × (port_of self.new ≡ port_of self.old) }
        ensures gates { IfOk result.1 (λ gates. EndsIn (first_of desk.now) (seen result.0) (TellsGates (port_of self.old) t gates)) }
        ensures past { IsErrOf result.1 RoundFault.Past → EndsIn (first_of desk.now) (seen result.0) (IsPast (port_of self.old) t) }
        ensures fault { IfErr result.1 (λ e. (e ≡ RoundFault.Past)
            ⊎ ((e ≡ RoundFault.Memory) ⊎ ((e ≡ RoundFault.Exhausted) × (2 ^ 63 ≤ tickets result.0)))) }
        ensures turns { IsRound self.old seat result.0 }
    {
        let (seat, caught_up) = self.catch_up(rt, desk, seat);
        match caught_up {
            Ok(()) => self.answer(desk, seat, t),
            Err(fault) => (seat, Err(fault)),
        }
    }

    /// Takes in what came since the worker's last turn, where anything did.
    fn catch_up<R: Wait>(&mut self, rt: &R, desk: &Desk<Bridge>, seat: Seat<Bridge>) -> Told<()>
        requires { IsSeatOf desk.now seat × IsWorkerOf desk.now self.old × Begins (last_seen self.old) (seen seat) }
        ensures goes { GoesOn desk.now seat result.0 }
        ensures worker { IsWorkerOf desk.now self.new × Begins (last_seen self.new) (seen result.0)
            × (port_of self.new ≡ port_of self.old) }
        ensures ok { OnOk result.1 ((self.new.is_short ≡ false) × (seen result.0 ≡ last_seen self.new)) }
        ensures fault { IfErr result.1 (λ e. (e ≡ RoundFault.Memory) ⊎ ((e ≡ RoundFault.Exhausted) × (2 ^ 63 ≤ tickets result.0))) }
        ensures turns { IsRound self.old seat result.0 }
    {
        let (seat, front) = desk.front(seat);
        if self.is_current(front) {
            return (seat, Ok(()));
        }
        self.follow(rt, desk, seat)
    }

    /// Whether nothing came since the worker's last turn, where so many turns have ended, and memory was not wanting in
    /// it.
    fn is_current(&self, front: u64) -> bool
        ensures { IsTrue result ↔ ((self.now.is_short ≡ false) × (self.now.place + 1 ≡ front)) }
    {
        !self.is_short && front.checked_sub(1) == Some(self.place)
    }

    /// Takes in what came since, by one turn.
    fn follow<R: Wait>(&mut self, rt: &R, desk: &Desk<Bridge>, seat: Seat<Bridge>) -> Told<()>
        requires { IsSeatOf desk.now seat × IsWorkerOf desk.now self.old × Begins (last_seen self.old) (seen seat) }
        ensures goes { GoesOn desk.now seat result.0 }
        ensures worker { IsWorkerOf desk.now self.new × Begins (last_seen self.new) (seen result.0)
            × (port_of self.new ≡ port_of self.old) }
        ensures ok { OnOk result.1 ((self.new.is_short ≡ false) × (seen result.0 ≡ last_seen self.new)) }
        ensures fault { IfErr result.1 (λ e. (e ≡ RoundFault.Memory) ⊎ ((e ≡ RoundFault.Exhausted) × (2 ^ 63 ≤ tickets result.0))) }
        ensures once { (made result.0 ≡ made seat) ⊎ CallsOnce (entries_behind self.old) seat result.0 }
    {
        // No journal has so many entries.
        let Ok(after) = u32::try_from(self.mirror.front()) else {
            return (seat, Err(RoundFault::Memory));
        };
        let (seat, read) = read_behind(rt, desk, seat, self.session, after);
        let (entries, place) = match read {
            Ok(told) => told,
            Err(fault) => return (seat, Err(fault)),
        };
        let taken = self.mirror.take(&entries);
        self.last = Snapshot::of(&seat);
        self.place = place;
        self.is_short = taken.is_err();
        (seat, taken.map_err(|_| RoundFault::Memory))
    }

    /// What the mirror tells of an instant, where the seat has seen just the history of the worker's last turn.
    fn answer(&self, _desk: &Desk<Bridge>, seat: Seat<Bridge>, t: Instant) -> Told<u8>
        requires { IsWorkerOf _desk.now self.now × (self.now.is_short ≡ false) × (seen seat ≡ last_seen self.now) }
        ensures same { result.0 ≡ seat }
        ensures gates { IfOk result.1 (λ gates. EndsIn (first_of _desk.now) (seen seat) (TellsGates (port_of self.now) t gates)) }
        ensures past { IsErrOf result.1 RoundFault.Past → EndsIn (first_of _desk.now) (seen seat) (IsPast (port_of self.now) t) }
        ensures fault { IfErr result.1 (λ e. e ≡ RoundFault.Past) }
    {
        match self.mirror.states_at(t) {
            Ok(gates) => (seat, Ok(gates)),
            Err(_) => (seat, Err(RoundFault::Past)),
        }
    }
}

/// One call of the seat, or none where no ticket is left. The witness attends.
fn ask<R: Wait, W: Witness<Bridge>>(
    rt: &R,
    desk: &Desk<Bridge>,
    seat: Seat<Bridge>,
    session: u32,
    command: Command,
    witness: &mut W,
) -> Told<Turn<Reply>>
    requires { IsSeatOf desk.now seat }
    ensures goes { GoesOn desk.now seat result.0 }
    ensures turned { IfOk result.1 (λ turn. HasTurned Turns desk.now seat (record { session = session; command = command }) turn.place
        turn.reply result.0) }
    ensures fault { IfErr result.1 (λ e. (e ≡ RoundFault.Exhausted) × (2 ^ 63 ≤ tickets result.0)) }
    ensures none { OnErr result.1 (made result.0 ≡ made seat) }
{
    let (seat, turned) = desk.attended_turn(rt, seat, Ask { session, command }, witness);
    match turned {
        Ok((turn, _)) => (seat, Ok(turn)),
        Err(_) => (seat, Err(RoundFault::Exhausted)),
    }
}

/// The session that goes by the name, or a new one. The witness attends.
fn say_hello<R: Wait, W: Witness<Bridge>>(
    rt: &R,
    desk: &Desk<Bridge>,
    seat: Seat<Bridge>,
    name: Option<SessionName>,
    witness: &mut W,
) -> Told<u32>
    requires { IsSeatOf desk.now seat × IsReached (first_of desk.now) }
    ensures goes { GoesOn desk.now seat result.0 }
    ensures said { IfOk result.1 (λ session. SaidHello desk.now seat name session result.0) }
    ensures fault { IfErr result.1 (λ e. (n : ℕ) → IsStartFault desk.now n e result.0) }
{
    let (seat, turned) = ask(rt, desk, seat, 0, Command::Hello { name }, witness);
    let turn = match turned {
        Ok(turn) => turn,
        Err(fault) => return (seat, Err(fault)),
    };
    match session_in(turn.reply) {
        Ok(session) => (seat, Ok(session)),
        Err(fault) => (seat, Err(fault)),
    }
}

/// The session that a hello was given.
fn session_in(reply: Reply) -> Result<u32, RoundFault>
    requires { AnswersHello reply }
    ensures ok { IfOk result (λ session. Gives reply session) }
    ensures fault { IfErr result (λ e. (e ≡ RoundFault.Memory) ⊎ (e ≡ RoundFault.Refused (Range fields.Session))) }
{
    match reply {
        Reply::Session { session } | Reply::Known { session } => Ok(session),
        Reply::Refused(why) => match why {
            Refusal::Memory => Err(RoundFault::Memory),
            _ => Err(RoundFault::Refused(why)),
        },
        _ => unreachable!(),
    }
}

/// The port's record now.
fn look<R: Wait>(
    rt: &R,
    desk: &Desk<Bridge>,
    seat: Seat<Bridge>,
    session: u32,
    port: PortId,
) -> Told<PortGates>
    requires { IsSeatOf desk.now seat × IsReached (first_of desk.now) × IsGivenIn (first_of desk.now) (seen seat) session × (1 ≤ port) }
    ensures goes { GoesOn desk.now seat result.0 }
    ensures looked { IfOk result.1 (λ value. Looked desk.now seat session port value result.0) }
    ensures fault { IfErr result.1 (λ e. IsStartFault desk.now port e result.0) }
{
    let key = Key::Port(port);
    let (seat, turned) = ask(rt, desk, seat, session, Command::Show { key }, &mut Nobody);
    let turn = match turned {
        Ok(turn) => turn,
        Err(fault) => return (seat, Err(fault)),
    };
    match record_in(turn.reply, port) {
        Ok(value) => (seat, Ok(value)),
        Err(fault) => (seat, Err(fault)),
    }
}

/// The record that a look at a port was shown.
fn record_in(reply: Reply, port: PortId) -> Result<PortGates, RoundFault>
    requires { AnswersLook port reply }
    ensures ok { IfOk result (λ value. reply ≡ Shown (Port port) (records.Port value)) }
    ensures fault { IfErr result (λ e. (e ≡ RoundFault.Memory)
        ⊎ ((e ≡ RoundFault.Refused (Range fields.Key)) × (reply ≡ Refused (Range fields.Key)))) }
{
    match reply {
        Reply::Shown {
            key: _,
            value: Record::Port(value),
        } => Ok(value),
        Reply::Refused(Refusal::Memory) => Err(RoundFault::Memory),
        Reply::Refused(why) => Err(RoundFault::Refused(why)),
        _ => unreachable!(),
    }
}

/// The entries of a greater number, and the place of the turn that told them.
#[tactic(auto, using(crate::proofs::Working::sees_more))]
fn read_behind<R: Wait>(
    rt: &R,
    desk: &Desk<Bridge>,
    seat: Seat<Bridge>,
    session: u32,
    after: u32,
) -> Told<(Entries, u64)>
    requires { IsSeatOf desk.now seat × IsReached (first_of desk.now) × IsGivenIn (first_of desk.now) (seen seat) session }
    ensures goes { GoesOn desk.now seat result.0 }
    ensures read { IfOk result.1 (λ r. HasRead desk.now seat session after r.0 r.1 result.0) }
    ensures fault { IfErr result.1 (λ e. (e ≡ RoundFault.Memory) ⊎ ((e ≡ RoundFault.Exhausted) × (2 ^ 63 ≤ tickets result.0))) }
    ensures once { (made result.0 ≡ made seat) ⊎ CallsOnce (since session after) seat result.0 }
{
    let (seat, turned) = ask(
        rt,
        desk,
        seat,
        session,
        Command::Since { after },
        &mut Nobody,
    );
    let turn = match turned {
        Ok(turn) => turn,
        Err(fault) => return (seat, Err(fault)),
    };
    let place = turn.place;
    match entries_in(turn.reply) {
        Ok(entries) => (seat, Ok((entries, place))),
        Err(fault) => (seat, Err(fault)),
    }
}

/// The entries that a question for them was told.
fn entries_in(reply: Reply) -> Result<Entries, RoundFault>
    requires { AnswersSince reply }
    ensures ok { IfOk result (λ entries. reply ≡ EntriesOf entries) }
    ensures fault { IfErr result (λ e. e ≡ RoundFault.Memory) }
{
    match reply {
        Reply::Entries { entries } => Ok(entries),
        Reply::Refused(_) => Err(RoundFault::Memory),
        _ => unreachable!(),
    }
}
