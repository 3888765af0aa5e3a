//! Journals in memory, written line by line, and their starts.
use std::alloc::{AllocError, Global};
use tsn_bridge::bridge::Bridge;
use tsn_bytes::MemIn;
use tsn_recorded::{Chain, LONGEST_COMMAND};
use tsn_resuming::{Resumed, StartFault, Watcher, first_command, resume};
use tsn_types::refusals::Refusal;

pub const HELLO: &[u8] = b"{\"do\":\"hello\"}";

pub const CREATE_GATE: &[u8] =
    b"{\"do\":\"create\",\"key\":\"gate 0\",\"record\":{\"base\":0,\"cycle\":1000000,\"extension\":0,\"invalid_rx\":false,\"ipv\":null,\"list\":[],\"octets_exceeded\":false,\"open\":true},\"s\":1}";

pub const CREATE_FILTER: &[u8] =
    b"{\"do\":\"create\",\"key\":\"filter 3\",\"record\":{\"gate\":0,\"handle\":7,\"max_sdu\":1500,\"meter\":null,\"oversize\":true,\"priority\":null},\"s\":1}";

pub const REMOVE_FILTER: &[u8] = b"{\"do\":\"remove\",\"key\":\"filter 3\",\"s\":1}";

pub const UNDO: &[u8] = b"{\"do\":\"undo\",\"s\":1}";

pub const ENABLE: &[u8] = b"{\"do\":\"enable\",\"key\":\"port 1\",\"now\":7,\"s\":1}";

/// Two edits, a third one that is taken back, and an act: entries 1 to 5.
pub const COMMANDS: [&[u8]; 6] = [
    HELLO,
    CREATE_GATE,
    CREATE_FILTER,
    REMOVE_FILTER,
    UNDO,
    ENABLE,
];

const STAMP: &[u8] = b"2026-11-27T12:31:00Z";

// Puts a line behind the text. A command that is longer than any may be is left out.
fn put(text: &mut Vec<u8>, chain: &mut Chain, command: &[u8]) -> Result<(), AllocError> {
    if LONGEST_COMMAND < command.len() {
        return Ok(());
    }
    chain.append(text, STAMP, command)
}

/// A text of these commands, a line each.
pub fn text_of(alloc: Global, first: &[u8], others: &[&[u8]]) -> Result<Vec<u8>, AllocError> {
    let mut text = Vec::new(alloc);
    let mut chain = Chain::new();
    put(&mut text, &mut chain, first)?;
    for command in others {
        put(&mut text, &mut chain, command)?;
    }
    Ok(text)
}

/// The text of a journal of this setup.
pub fn journal(alloc: Global, setup: &[u8], others: &[&[u8]]) -> Result<Vec<u8>, Refusal> {
    let first = first_command(alloc, setup)?;
    Ok(text_of(alloc, first.as_slice(), others)?)
}

/// It counts what it is told.
#[derive(Clone, Copy, Debug, PartialEq, Eq)]
pub struct Count {
    pub began: u32,
    pub stepped: u32,
}

impl Watcher for Count {
    fn began(&mut self, _setup: &[u8], _stamp: &[u8]) {
        self.began = self.began.saturating_add(1);
    }

    fn stepped(&mut self, _bridge: &Bridge, _stamp: &[u8], _command: &[u8]) {
        self.stepped = self.stepped.saturating_add(1);
    }
}

/// A start from the text, read in pieces of 100 bytes.
pub fn start(
    alloc: Global,
    text: Vec<u8>,
    setup: Option<&[u8]>,
    watcher: &mut Count,
) -> Result<Resumed, StartFault> {
    let mut file = MemIn::new(text, 100, None);
    resume(alloc, &mut file, setup, watcher)
}

/// What was counted before anything was told.
pub const NOTHING: Count = Count {
    began: 0,
    stepped: 0,
};

/// Why a start from the text fails; none where it doesn't.
pub fn fault(alloc: Global, text: Vec<u8>, setup: Option<&[u8]>) -> Option<StartFault> {
    let mut watcher = NOTHING;
    start(alloc, text, setup, &mut watcher).err()
}
