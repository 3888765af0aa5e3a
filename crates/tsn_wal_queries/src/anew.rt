//! The text of a new journal whose bridge has the configuration of another one.
//!
//! A configuration that is a setup is that of the first line. One that is longer than a setup may be begins with its
//! limits and ports there. The rest comes in by commands of a first session, which creates it, what is referred to
//! first, and settles that: so nothing of it can be taken back.
use std::alloc::{AllocError, Global};
use std::{mem, time};
use tsn_bridge::command::{Ask, Command};
use tsn_config::Config;
use tsn_config::records::Records;
use tsn_edit::batches::Batch;
use tsn_edit::{Edit, MOST_PARTS};
use tsn_export::{SetupText, export_setup};
use tsn_failures::Failure;
use tsn_recorded::LONGEST_COMMAND;
use tsn_spelling::spell;
use tsn_types::keys::{Key, Kind};
use tsn_types::numbers::{FilterId, GateId, MeterId, PortId};
use tsn_types::records::{Record, RecordRef};
use tsn_types::refusals::Refusal;
use tsn_wal_files::{JournalFault, NO_MEMORY, NewText};

/// The session that creates what does not come in by the setup.
const CREATOR: u32 = 1;

/// The kinds whose records it creates, in this order: filters refer to gates and meters.
const CREATED: [Kind; 3] = [Kind::Gate, Kind::Meter, Kind::Filter];

/// What the line of a batch has beside its edits is less, counted with each edit as its own line is.
const AROUND_EDITS: usize = 32;

/// The bytes that the edits of a batch have at most, each counted as its own line is: then the batch's line is none too
/// long.
const MOST_GATHERED: usize = LONGEST_COMMAND - AROUND_EDITS;

/// A new journal's text, and how many entries it makes.
#[derive(Drop)]
pub(crate) struct Anew {
    pub(crate) text: NewText,
    pub(crate) entries: u32,
}

/// Creates records: those that fit into one line together.
#[derive(Drop)]
struct Creator {
    alloc: Global,
    anew: Anew,
    gathered: Vec<Edit>,
    // The bytes that they have, each counted as its own line is.
    bytes: usize,
}

// What a configuration can't be begun with for.
fn refused(why: Refusal) -> JournalFault {
    JournalFault::Failed(Failure::Refused(why))
}

// The key of a kind and a number; none where it has no such.
fn key_of(kind: Kind, id: u64) -> Option<Key> {
    match kind {
        Kind::Port => Some(Key::Port(PortId::new(id).ok()?)),
        Kind::Filter => Some(Key::Filter(FilterId::new(id).ok()?)),
        Kind::Gate => Some(Key::Gate(GateId::new(id).ok()?)),
        Kind::Meter => Some(Key::Meter(MeterId::new(id).ok()?)),
    }
}

// How many bytes the line has that creates a record.
fn creation_length(alloc: Global, key: &Key, record: &Record) -> Result<usize, AllocError> {
    let mut line = Vec::new(alloc);
    let value = record.try_clone()?;
    let ask = Ask {
        session: CREATOR,
        command: Command::Create { key: *key, value },
    };
    spell(&ask, &mut line)?;
    Ok(line.len())
}

// The ports' records alone.
fn ports_of(alloc: Global, config: &Config) -> Result<Records, AllocError> {
    let mut records = Records::new(alloc);
    for number in 1..=config.limits().ports() {
        let Ok(id) = PortId::new(number) else {
            return Ok(records);
        };
        if let Some(RecordRef::Port(port)) = config.get(Key::Port(id)) {
            records.push(Key::Port(id), Record::Port(port.try_clone()?))?;
        }
    }
    Ok(records)
}

// The setup of the limits and the ports alone.
fn ports_setup(alloc: Global, config: &Config) -> Result<SetupText, Refusal> {
    let records = ports_of(alloc, config)?;
    let ports = Config::open(alloc, config.limits(), records)?;
    export_setup(alloc, &ports)
}

impl Creator {
    // Records a command.
    fn record(&mut self, command: Command) -> Result<(), JournalFault> {
        self.anew.text.record(&Ask {
            session: CREATOR,
            command,
        })
    }

    // Records one that makes an entry.
    fn enter(&mut self, command: Command) -> Result<(), JournalFault> {
        match self.record(command) {
            Ok(()) => {
                self.anew.entries = self.anew.entries.saturating_add(1);
                Ok(())
            }
            Err(fault) => Err(fault),
        }
    }

    // Creates what is gathered, if it is anything, all at once.
    fn create_gathered(&mut self) -> Result<(), JournalFault> {
        let edits = mem::replace(&mut self.gathered, Vec::new(self.alloc));
        self.bytes = 0;
        if edits.is_empty() {
            return Ok(());
        }
        match Batch::new(edits) {
            Ok(batch) => self.enter(Command::Batch { batch }),
            Err(why) => Err(refused(why)),
        }
    }

    // Gathers the creation of a record, whose own line has so many bytes.
    fn gather(&mut self, key: Key, value: Record, bytes: usize) -> Result<(), JournalFault> {
        let all = self.bytes.saturating_add(bytes);
        if self.gathered.len() == MOST_PARTS || all > MOST_GATHERED {
            self.create_gathered()?;
        }
        self.bytes = self.bytes.saturating_add(bytes);
        match self.gathered.push(Edit::Create(key, value)) {
            Ok(()) => Ok(()),
            Err(_) => Err(NO_MEMORY),
        }
    }

    // Creates a record: alone where a batch's line would be too long, and else sooner or later.
    fn create(&mut self, key: &Key, value: Record) -> Result<(), JournalFault> {
        let Ok(bytes) = creation_length(self.alloc, key, &value) else {
            return Err(NO_MEMORY);
        };
        if bytes > LONGEST_COMMAND {
            return Err(JournalFault::LongRecord(*key));
        }
        if bytes > MOST_GATHERED {
            return self.enter(Command::Create { key: *key, value });
        }
        self.gather(*key, value, bytes)
    }

    // Creates the record at the key, if there is one, sooner or later.
    fn create_found(&mut self, config: &Config, key: &Key) -> Result<(), JournalFault> {
        let Some(found) = config.get(*key) else {
            return Ok(());
        };
        match found.try_clone() {
            Ok(value) => self.create(key, value),
            Err(_) => Err(NO_MEMORY),
        }
    }

    // Creates all records of a kind.
    fn create_kind(&mut self, config: &Config, kind: Kind) -> Result<(), JournalFault> {
        let Ok(ids) = config.ids(self.alloc, kind) else {
            return Err(NO_MEMORY);
        };
        'ids: for id in ids.as_slice() {
            if let Some(key) = key_of(kind, *id) {
                self.create_found(config, &key)?;
            }
        }
        self.create_gathered()
    }
}

// The text where the configuration is longer than a setup may be.
fn by_creations<R: time::Clock>(
    rt: &R,
    alloc: Global,
    config: &Config,
) -> Result<Anew, JournalFault> {
    let setup = match ports_setup(alloc, config) {
        Ok(setup) => setup,
        Err(why) => return Err(refused(why)),
    };
    let mut creator = Creator {
        alloc,
        anew: Anew {
            text: NewText::begin(rt, alloc, setup.as_bytes())?,
            entries: 0,
        },
        gathered: Vec::new(alloc),
        bytes: 0,
    };
    creator.record(Command::Hello { name: None })?;
    for kind in CREATED {
        creator.create_kind(config, kind)?;
    }
    let upto = creator.anew.entries;
    creator.enter(Command::Settle { upto })?;
    Ok(creator.anew)
}

/// The text of a new journal whose bridge has this configuration. Refused where its ports alone are longer than a setup
/// may be, or where a record that is no port's is longer than a line may be.
pub(crate) fn text_of<R: time::Clock>(
    rt: &R,
    alloc: Global,
    config: &Config,
) -> Result<Anew, JournalFault> {
    match export_setup(alloc, config) {
        Ok(setup) => Ok(Anew {
            text: NewText::begin(rt, alloc, setup.as_bytes())?,
            entries: 0,
        }),
        Err(Refusal::TooLong) => by_creations(rt, alloc, config),
        Err(why) => Err(refused(why)),
    }
}
