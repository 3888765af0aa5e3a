//! The bridge: its book and its runtime, and the sessions that it has given out, stepped by one command at a time.
//!
//! A step is a step of the machine that `specs/Machine.antt` defines, by one rule a command. Contracts see a bridge as
//! the machine's state. The book and the runtime are one pair, whose type says that they are tied.
//! A refused command changes nothing; of several causes the one of the least number is answered, and want of memory
//! only where no other cause holds.
ghost use Rattle.std.specs.Prelude.{◌≡◌, ◌≢◌, ◌⊎◌, ◌++◌, ◌∷◌, [], Err, IfOk, IfErr, OnErr, OnOk, Some, None, true};
ghost use Rattle.tsn_types.specs.declared.refusals.Refusal.{Refusal as AnyRefusal};
ghost use Rattle.tsn_types.specs.declared.refusals.Refusal.TheVariants.{Memory, NoSession};
ghost use Rattle.tsn_types.specs.Lent.{lent_record};
ghost use Rattle.tsn_types.specs.Refusals.{least};
ghost use Rattle.tsn_edit.specs.Configuration.{IsWellKept};
ghost use Rattle.tsn_edit.specs.Runs.{run, IsGood};
ghost use Rattle.tsn_config.specs.Opening.{limits_cause, opening_refusal};
ghost use Rattle.tsn_entries.specs.Entries.{changes, no_room, standing};
ghost use Rattle.tsn_entries.specs.Marks.{entries_of};
ghost use Rattle.tsn_undo.specs.Ledger.{base_of, present};
ghost use Rattle.tsn_undo.specs.Soundness.{IsSound};
ghost use Rattle.tsn_types.specs.Limits.{first_cause};
ghost use Rattle.tsn_commands.specs.declared.reply.Reply.TheVariants.{Entries, Refused, Shown};
ghost use Rattle.tsn_bridge.specs.Acts.{act_causes, act_rule, instant, key_causes, list_causes};
ghost use Rattle.tsn_bridge.specs.Beginning.{IsOpened, Opens, begun};
ghost use Rattle.tsn_config.specs.Opening.{standard_limits};
ghost use Rattle.tsn_bridge.specs.Edits.{AllowsRedo, edit_rule, undo_all_rule, undo_rule};
ghost use Rattle.tsn_bridge.specs.Frames.{frame_rule};
ghost use Rattle.tsn_bridge.specs.Later.{IsWhole};
ghost use Rattle.tsn_bridge.specs.Looking.{counters_rule, states_rule};
ghost use Rattle.tsn_bridge.specs.Machine.{Step};
ghost use Rattle.tsn_bridge.specs.Reads.{list_rule, record_has_list, setup_rule, show_rule, since_rule};
ghost use Rattle.tsn_bridge.specs.Refusing.{IsCause};
ghost use Rattle.tsn_bridge.specs.Rule.{Allows, is_given, no_session};
ghost use Rattle.tsn_bridge.specs.Sessions.{hello_rule, resume_rule, sessions_rule};
ghost use Rattle.tsn_bridge.specs.Settling.{settle_rule};

use crate::pair::Pair;
use crate::sessions::{Named, Sessions};
use std::alloc::{AllocError, Global};
use std::marker::Model;
use tsn_chain::frame::Frame;
use tsn_commands::command::Command;
pub use tsn_commands::command::MOST_SESSIONS;
use tsn_commands::reply::Reply;
use tsn_config::Config;
use tsn_config::records::Records;
pub use tsn_config::setup::Setup;
use tsn_edit::Edit;
use tsn_edit::batches::Batch;
use tsn_export::export_setup;
use tsn_journal::entries::{Act, MarkedEntry};
use tsn_journal::journal::Journal;
use tsn_schedule::runner::Past;
use tsn_types::keys::{Key, Kind};
use tsn_types::limits::Limits;
use tsn_types::names::SessionName;
use tsn_types::numbers::Instant;
use tsn_types::records::{Record, RecordRef};
use tsn_types::refusals::{Field, Refusal};

/// The state of one bridge.
#[derive(Drop)]
pub struct Bridge {
    alloc: Global,
    pair: Box<Pair>,
    sessions: Sessions,
}

impl Model for Bridge {
    ghost use Rattle.tsn_bridge.specs.State.{State, state_code};

    ghost Value = { State };

    ghost coded = { state_code };

    ghost view = { λ a. record {
      book = a.pair.value.ledger;
      sessions = a.sessions.count;
      names = a.sessions.names;
      time = a.pair.value.time;
      frames = a.pair.value.frames;
    } };
}

impl Bridge {
    /// A bridge that begins with the setup. Refused are, in this order: the first record whose identifier, gate, meter
    /// or list is outside the limits (4, field `id` for the identifier), the first key that is given twice (7), and the
    /// first absent reference of the least filter (8). A refusal for limits is answered whatever memory there is; want
    /// of memory (18) may be answered in place of any other answer.
    pub fn new(alloc: Global, setup: Setup) -> Result<Bridge, Refusal>
        ensures admitted { OnOk result (opening_refusal setup.limits setup.records ≡ None) }
        ensures begins { IfOk result (λ bridge. bridge ≡ begun setup.limits setup.records) }
        ensures opens { OnOk result (Opens setup.limits setup.records) }
        ensures opened { IfOk result (λ bridge. IsOpened bridge) }
        ensures refused { IfErr result (λ why.
            (opening_refusal setup.limits setup.records ≡ Some why) ⊎ (why ≡ Memory)) }
        ensures beyond { (why : AnyRefusal) → limits_cause setup.limits setup.records ≡ Some why → result ≡ Err why }
    {
        let Setup { limits, records } = setup;
        let config = Config::open(alloc, limits, records)?;
        let pair = Box::new(alloc, Pair::begin(alloc, config)?)?;
        Ok(Bridge {
            alloc,
            pair,
            sessions: Sessions::new(alloc),
        })
    }

    /// Answers a command of the session. One that was not given out is refused 5; that of a hello is not looked at. A
    /// refusal is the reply `Refused`, and changes nothing.
    pub fn step(&mut self, session: u32, command: Command) -> Reply
        ensures { Step self.old session command result self.new }
    {
        match command {
            Command::Hello { name } => self.hello(name),
            Command::Create { key, value } => self.edit(
                session,
                Batch::one(Edit::Create(key, value)),
            ),
            Command::Replace { key, value } => self.edit(
                session,
                Batch::one(Edit::Replace(key, value)),
            ),
            Command::Remove { key } => self.edit(session, Batch::one(Edit::Remove(key))),
            Command::Batch { batch } => self.edit(session, batch),
            Command::Undo => self.undo(session),
            Command::UndoAll => self.undo_all(session),
            Command::Redo => self.redo(session),
            Command::Settle { upto } => self.settle(session, upto),
            Command::Enable { key, now } => self.act(session, Act::Enable, &key, now),
            Command::Disable { key, now } => self.act(session, Act::Disable, &key, now),
            Command::Apply { key, now } => self.act(session, Act::Apply, &key, now),
            Command::Frame { frame, now } => self.frame(session, frame, now),
            Command::States { key, at } => self.states(session, &key, at),
            Command::Counters { key } => self.counters(session, &key),
            Command::Show { key } => self.show(session, &key),
            Command::List { kind } => self.list(session, kind),
            Command::Since { after } => self.since(session, after),
            Command::Resume => self.resume(session),
            Command::Sessions => self.given_sessions(session),
            Command::Setup => self.setup(session),
        }
    }

    /// Why a command that changes what the bridge keeps would be refused, but for want of memory. That of a look and of
    /// a frame is not told: none. It takes no memory.
    pub fn cause(&self, session: u32, command: Command) -> Option<Refusal>
        ensures { IsCause self.now session command result }
    {
        match command {
            Command::Hello { name } => self.cause_of_hello(&name),
            Command::Create { key, value } => self.cause_of_edit(session, Edit::Create(key, value)),
            Command::Replace { key, value } => self.cause_of_edit(
                session,
                Edit::Replace(key, value),
            ),
            Command::Remove { key } => self.cause_of_edit(session, Edit::Remove(key)),
            Command::Batch { batch } => self.cause_of_batch(session, &batch),
            Command::Undo => self.cause_with(session, self.pair.book().refuse_undo(session)),
            Command::UndoAll => self.cause_with(session, self.pair.book().refuse_undo_all(session)),
            Command::Redo => self.cause_with(session, self.pair.book().refuse_redo(session)),
            Command::Settle { upto } => self.cause_with(
                session,
                self.pair.book().refuse_settle(u64::from(upto)),
            ),
            Command::Enable { key, .. } => self.cause_of_act(session, Act::Enable, &key),
            Command::Disable { key, .. } => self.cause_of_act(session, Act::Disable, &key),
            Command::Apply { key, .. } => self.cause_of_act(session, Act::Apply, &key),
            _ => None,
        }
    }

    /// The present configuration. It is the run of the standing entries from the base, and that run is good. There
    /// is data for just its keys.
    pub fn config(&self) -> &Config
        ensures limits { result.now.limits ≡ self.now.book.limits }
        ensures map { result.now.map ≡ present self.now.book }
        ensures kept { IsWellKept self.now.book.limits (present self.now.book) }
        ensures sound { IsSound self.now.book.limits self.now.book.opening self.now.book.entries }
        ensures whole { IsWhole self.now }
        ensures good { IsGood self.now.book.limits (base_of self.now.book) (changes (standing self.now.book.entries)) }
        ensures stands { result.now.map ≡ run (base_of self.now.book) (changes (standing self.now.book.entries)) }
    {
        self.sessions.recall_order();
        self.pair.book().config()
    }

    /// The record at the key, lent, which a show by the session answers; refused as a show is, and never for want of
    /// memory.
    pub fn lent_record(&self, session: u32, key: &Key) -> Result<RecordRef<'_>, Refusal>
        ensures ok { IfOk result (λ found. Allows (show_rule self.now session key.now) self.now (Shown key.now (lent_record found))
            self.now) }
        ensures refused { IfErr result (λ why. Allows (show_rule self.now session key.now) self.now (Refused why) self.now) }
        ensures memory { IfErr result (λ why. why ≢ Memory) }
    {
        if !self.config().limits().holds(*key) {
            return Err(Refusal::Range(Field::Key));
        }
        if !self.is_given(session) {
            return Err(Refusal::NoSession);
        }
        match self.config().get(*key) {
            Some(found) => Ok(found),
            None => Err(Refusal::Missing(*key)),
        }
    }

    /// The entries of a greater number than `after`, as they are kept, which a since by the session answers; refused as
    /// a since is, and never for want of memory.
    pub fn kept_since(&self, session: u32, after: u32) -> Result<&[MarkedEntry], Refusal>
        ensures ok { IfOk result (λ kept. Allows (since_rule self.now session after) self.now (Entries (entries_of kept.now)) self.now) }
        ensures refused { IfErr result (λ why. Allows (since_rule self.now session after) self.now (Refused why) self.now) }
        ensures memory { IfErr result (λ why. why ≢ Memory) }
    {
        if !self.is_given(session) {
            return Err(Refusal::NoSession);
        }
        Ok(self.journal().kept_since(u64::from(after)))
    }

    /// The instant that counts for an act that is asked for at `now`: an earlier one counts as the bridge time.
    pub fn counted(&self, now: Instant) -> Instant
        ensures { result ≡ instant self.now now }
    {
        let time = self.pair.time();
        if time.get() < now.get() { now } else { time }
    }

    /// How many sessions were given out.
    pub fn session_count(&self) -> u32
        ensures { result ≡ self.now.sessions }
    {
        self.sessions.count()
    }

    /// The sessions that go by a name, in the order of their numbers.
    pub fn named_sessions(&self) -> &[Named]
        ensures { result.now ≡ self.now.names }
    {
        self.sessions.names()
    }

    /// The journal of what the sessions did.
    pub fn journal(&self) -> &Journal
        ensures entries { result.now.entries ≡ self.now.book.entries }
        ensures sound { IsSound self.now.book.limits self.now.book.opening self.now.book.entries }
    {
        self.pair.book().journal()
    }

    /// The session that goes by the name, or else the next session number. Only a name takes memory.
    fn hello(&mut self, name: Option<SessionName>) -> Reply
        ensures { Allows (hello_rule self.old name) self.old result self.new }
    {
        if let Some(session) = self.sessions.known(&name) {
            return Reply::Known { session };
        }
        if self.sessions.count() >= MOST_SESSIONS {
            return Reply::Refused(Refusal::Range(Field::Session));
        }
        match self.sessions.give_out(name) {
            Ok(()) => Reply::Session {
                session: self.sessions.count(),
            },
            Err(_) => Reply::Refused(Refusal::Memory),
        }
    }

    /// Whether the session number was given out.
    fn is_given(&self, session: u32) -> bool
        ensures { result ≡ is_given self.now session }
    {
        self.sessions.has(session)
    }

    // Why a hello is refused: no session goes by its name, and no session number is left.
    fn cause_of_hello(&self, name: &Option<SessionName>) -> Option<Refusal>
        ensures { result ≡ least (hello_rule self.now name.now).causes }
    {
        if self.sessions.known(name).is_none() && self.sessions.count() >= MOST_SESSIONS {
            return Some(Refusal::Range(Field::Session));
        }
        None
    }

    // Why a command of the session is refused, where the book would refuse it for this, if for anything.
    fn cause_with(&self, session: u32, why: Option<Refusal>) -> Option<Refusal>
        ensures { result ≡ least (no_session self.now session ∷ why ∷ []) }
    {
        if self.is_given(session) {
            return why;
        }
        Some(stranger(&why))
    }

    // Why a batch of edits is refused, but for want of memory.
    fn cause_of_batch(&self, session: u32, batch: &Batch) -> Option<Refusal>
        ensures { result ≡ least (edit_rule self.now session batch.now).causes }
    {
        self.cause_with(session, self.pair.book().refuse_edit(batch))
    }

    // Why one edit is refused, but for want of memory.
    fn cause_of_edit(&self, session: u32, edit: Edit) -> Option<Refusal>
        ensures { result ≡ least (edit_rule self.now session (edit ∷ [])).causes }
    {
        self.cause_of_batch(session, &Batch::one(edit))
    }

    // Why an act is refused, but for want of memory.
    fn cause_of_act(&self, session: u32, act: Act, key: &Key) -> Option<Refusal>
        ensures { result ≡ least (list_causes self.now session key.now
            (act_causes self.now.book act key.now ++ no_room self.now.book.entries 1 ∷ [])) }
    {
        if let Some(why) = self.refuse_list(session, key) {
            return Some(why);
        }
        self.pair.cause_of_act(act, key)
    }

    fn edit(&mut self, session: u32, batch: Batch) -> Reply
        ensures { Allows (edit_rule self.old session batch) self.old result self.new }
    {
        if !self.is_given(session) {
            return Reply::Refused(stranger(&self.pair.book().refuse_edit(&batch)));
        }
        match self.pair.edit(session, batch) {
            Ok(entry) => Reply::Entry { entry },
            Err(why) => Reply::Refused(why),
        }
    }

    fn undo(&mut self, session: u32) -> Reply
        ensures { Allows (undo_rule self.old session) self.old result self.new }
    {
        if !self.is_given(session) {
            return Reply::Refused(stranger(&self.pair.book().refuse_undo(session)));
        }
        match self.pair.undo(session) {
            Ok((entry, of)) => Reply::EntryOf { entry, of },
            Err(why) => Reply::Refused(why),
        }
    }

    fn undo_all(&mut self, session: u32) -> Reply
        ensures { Allows (undo_all_rule self.old session) self.old result self.new }
    {
        if !self.is_given(session) {
            return Reply::Refused(stranger(&self.pair.book().refuse_undo_all(session)));
        }
        match self.pair.undo_all(session) {
            Ok((count, entry)) => Reply::TakenBack { count, entry },
            Err(why) => Reply::Refused(why),
        }
    }

    fn redo(&mut self, session: u32) -> Reply
        ensures { AllowsRedo self.old session result self.new }
    {
        if !self.is_given(session) {
            return Reply::Refused(stranger(&self.pair.book().refuse_redo(session)));
        }
        match self.pair.redo(session) {
            Ok((entry, undone)) => Reply::EntryOf { entry, of: undone },
            Err(why) => Reply::Refused(why),
        }
    }

    fn settle(&mut self, session: u32, upto: u32) -> Reply
        ensures { Allows (settle_rule self.old session upto) self.old result self.new }
    {
        let upto = u64::from(upto);
        if !self.is_given(session) {
            return Reply::Refused(stranger(&self.pair.book().refuse_settle(upto)));
        }
        match self.pair.settle(session, upto) {
            Ok(entry) => Reply::Settled {
                entry,
                settled: upto,
            },
            Err(why) => Reply::Refused(why),
        }
    }

    fn act(&mut self, session: u32, act: Act, key: &Key, now: Instant) -> Reply
        ensures { Allows (act_rule self.old session act key.now now) self.old result self.new }
    {
        if let Some(why) = self.refuse_list(session, key) {
            return Reply::Refused(why);
        }
        match self.pair.act(session, act, key, now) {
            Ok(done) => Reply::Acted {
                change: done.change,
                entry: done.entry,
                now: done.now,
            },
            Err(why) => Reply::Refused(why),
        }
    }

    /// Hands a frame to the filter chain. It takes no memory.
    fn frame(&mut self, session: u32, frame: Frame, now: Instant) -> Reply
        ensures { Allows (frame_rule self.old session frame now) self.old result self.new }
    {
        if !self.is_given(session) {
            return Reply::Refused(Refusal::NoSession);
        }
        Reply::Framed(self.pair.frame(frame, now))
    }

    /// The answer to a look at the state of a port's or a stream gate's gates at an instant, as `step` gives it.
    pub fn states(&self, session: u32, key: &Key, at: Instant) -> Reply
        ensures { Allows (states_rule self.now session key.now at) self.now result self.now }
    {
        if let Some(why) = self.refuse_list(session, key) {
            return Reply::Refused(why);
        }
        match self.pair.states_at(key, at) {
            Ok(state) => Reply::States(state),
            Err(Past) => Reply::Refused(Refusal::Past),
        }
    }

    fn counters(&self, session: u32, key: &Key) -> Reply
        ensures { Allows (counters_rule self.now session key.now) self.now result self.now }
    {
        if let Some(why) = self.refuse_key(session, key) {
            return Reply::Refused(why);
        }
        Reply::Counters(self.pair.counters(key))
    }

    /// Why a command on a list is refused, but for what the command adds: its key has no list, or as `refuse_key` says.
    fn refuse_list(&self, session: u32, key: &Key) -> Option<Refusal>
        ensures { result ≡ first_cause (list_causes self.now session key.now []) }
    {
        match key {
            Key::Port(_) | Key::Gate(_) => self.refuse_key(session, key),
            Key::Filter(_) | Key::Meter(_) => Some(Refusal::Shape),
        }
    }

    /// Why a command on a key is refused, but for what the command adds: the key is outside the limits, the session was
    /// not given out, the key is absent.
    fn refuse_key(&self, session: u32, key: &Key) -> Option<Refusal>
        ensures { result ≡ first_cause (key_causes self.now session key.now []) }
    {
        if !self.config().limits().holds(*key) {
            return Some(Refusal::Range(Field::Key));
        }
        if !self.is_given(session) {
            return Some(Refusal::NoSession);
        }
        if self.config().get(*key).is_none() {
            return Some(Refusal::Missing(*key));
        }
        None
    }

    fn show(&self, session: u32, key: &Key) -> Reply
        ensures { Allows (show_rule self.now session key.now) self.now result self.now }
    {
        if !self.config().limits().holds(*key) {
            return Reply::Refused(Refusal::Range(Field::Key));
        }
        if !self.is_given(session) {
            return Reply::Refused(Refusal::NoSession);
        }
        match self.config().get(*key) {
            Some(found) => match copy_of(found) {
                Ok(value) => Reply::Shown { key: *key, value },
                Err(_) => Reply::Refused(Refusal::Memory),
            },
            None => Reply::Refused(Refusal::Missing(*key)),
        }
    }

    fn list(&self, session: u32, kind: Kind) -> Reply
        ensures { Allows (list_rule self.now session kind) self.now result self.now }
    {
        if !self.is_given(session) {
            return Reply::Refused(Refusal::NoSession);
        }
        match self.config().ids(self.alloc, kind) {
            Ok(ids) => Reply::Ids { ids },
            Err(_) => Reply::Refused(Refusal::Memory),
        }
    }

    fn since(&self, session: u32, after: u32) -> Reply
        ensures { Allows (since_rule self.now session after) self.now result self.now }
    {
        if !self.is_given(session) {
            return Reply::Refused(Refusal::NoSession);
        }
        match self.journal().since(u64::from(after)) {
            Ok(entries) => Reply::Entries { entries },
            Err(_) => Reply::Refused(Refusal::Memory),
        }
    }

    /// It takes no memory.
    fn resume(&self, session: u32) -> Reply
        ensures { Allows (resume_rule self.now session) self.now result self.now }
    {
        if self.is_given(session) {
            Reply::Session { session }
        } else {
            Reply::Refused(Refusal::NoSession)
        }
    }

    fn given_sessions(&self, session: u32) -> Reply
        ensures { Allows (sessions_rule self.now session) self.now result self.now }
    {
        if !self.is_given(session) {
            return Reply::Refused(Refusal::NoSession);
        }
        match self.sessions.told(self.alloc, self.journal()) {
            Ok(sessions) => Reply::Sessions { sessions },
            Err(_) => Reply::Refused(Refusal::Memory),
        }
    }

    fn setup(&self, session: u32) -> Reply
        ensures { Allows (setup_rule self.now session) self.now result self.now }
    {
        if !self.is_given(session) {
            return Reply::Refused(Refusal::NoSession);
        }
        match export_setup(self.alloc, self.config()) {
            Ok(text) => Reply::Setup { text },
            Err(why) => Reply::Refused(why),
        }
    }
}

/// A record that equals the one that is lent. Only a record with a list takes memory.
fn copy_of(found: RecordRef<'_>) -> Result<Record, AllocError>
    ensures copy { IfOk result (λ copy. copy ≡ lent_record found.entry) }
    ensures memory { OnErr result (record_has_list (lent_record found.entry) ≡ true) }
{
    match found {
        RecordRef::Filter(filter) => Ok(Record::Filter(*filter)),
        RecordRef::Meter(meter) => Ok(Record::Meter(*meter)),
        RecordRef::Port(_) | RecordRef::Gate(_) => found.try_clone(),
    }
}

/// Why a command of a session that was not given out is refused, where the book would refuse it for this: the cause of
/// the lesser number.
fn stranger(why: &Option<Refusal>) -> Refusal
    ensures { Some result ≡ least (Some NoSession ∷ why.now ∷ []) }
{
    match why {
        Some(found) => {
            if found.rank() < 5 {
                *found
            } else {
                Refusal::NoSession
            }
        }
        None => Refusal::NoSession,
    }
}
