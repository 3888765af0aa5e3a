//! Worked scripts, as pairs of a command line and its reply, and the same lines in other spellings.
use std::alloc::{AllocError, Global};

/// A command line and the reply line to it, both without their line feeds.
pub type Exchange = (&'static str, &'static str);

/// A hello, a gate and a filter on it, the filter's removal, and two undos.
pub const FIRST_RUN: [Exchange; 6] = [
    (r#"{"do":"hello"}"#, r#"{"session":1}"#),
    (
        r#"{"do":"create","key":"gate 0","record":{"base":0,"cycle":1000000,"extension":0,"invalid_rx":false,"ipv":null,"list":[],"octets_exceeded":false,"open":true},"s":1}"#,
        r#"{"entry":1}"#,
    ),
    (
        r#"{"do":"create","key":"filter 3","record":{"gate":0,"handle":7,"max_sdu":1500,"meter":null,"oversize":true,"priority":null},"s":1}"#,
        r#"{"entry":2}"#,
    ),
    (
        r#"{"do":"remove","key":"filter 3","s":1}"#,
        r#"{"entry":3}"#,
    ),
    (r#"{"do":"undo","s":1}"#, r#"{"entry":4,"of":3}"#),
    (r#"{"do":"undo","s":1}"#, r#"{"entry":5,"of":2}"#),
];

/// Records created, refused, listed, shown, removed and put back, and what was done told.
pub const RECORDS: [Exchange; 27] = [
    (r#"{"do":"hello"}"#, r#"{"session":1}"#),
    (r#"{"do":"list","kind":"filter","s":1}"#, r#"{"ids":[]}"#),
    (
        r#"{"do":"create","key":"gate 0","record":{"base":0,"cycle":1000000,"extension":0,"invalid_rx":false,"ipv":null,"list":[],"octets_exceeded":false,"open":true},"s":1}"#,
        r#"{"entry":1}"#,
    ),
    (
        r#"{"do":"create","key":"meter 0","record":{"all_red":false,"aware":false,"cbs":1500,"cf":false,"cir":8000000,"drop_yellow":false,"ebs":0,"eir":0},"s":1}"#,
        r#"{"entry":2}"#,
    ),
    (
        r#"{"do":"create","key":"filter 3","record":{"gate":0,"handle":7,"max_sdu":1500,"meter":0,"oversize":true,"priority":null},"s":1}"#,
        r#"{"entry":3}"#,
    ),
    (
        r#"{"do":"show","key":"filter 3","s":1}"#,
        r#"{"key":"filter 3","record":{"gate":0,"handle":7,"max_sdu":1500,"meter":0,"oversize":true,"priority":null}}"#,
    ),
    (
        r#"{"do":"show","key":"gate 0","s":1}"#,
        r#"{"key":"gate 0","record":{"base":0,"cycle":1000000,"extension":0,"invalid_rx":false,"ipv":null,"list":[],"octets_exceeded":false,"open":true}}"#,
    ),
    (
        r#"{"do":"create","key":"filter 4","record":{"gate":9,"handle":7,"max_sdu":1500,"meter":null,"oversize":true,"priority":null},"s":1}"#,
        r#"{"key":"gate 9","refused":8,"why":"dangling"}"#,
    ),
    (
        r#"{"do":"create","key":"filter 4","record":{"gate":9,"handle":7,"max_sdu":1500,"meter":9,"oversize":true,"priority":null},"s":1}"#,
        r#"{"key":"gate 9","refused":8,"why":"dangling"}"#,
    ),
    (
        r#"{"do":"remove","key":"meter 0","s":1}"#,
        r#"{"by":"filter 3","refused":9,"why":"referred"}"#,
    ),
    (
        r#"{"do":"replace","key":"meter 9","record":{"all_red":false,"aware":false,"cbs":1500,"cf":false,"cir":8000000,"drop_yellow":false,"ebs":0,"eir":0},"s":1}"#,
        r#"{"key":"meter 9","refused":6,"why":"missing"}"#,
    ),
    (r#"{"do":"list","kind":"gate","s":1}"#, r#"{"ids":[0]}"#),
    (r#"{"do":"list","kind":"port","s":1}"#, r#"{"ids":[1,2]}"#),
    (
        r#"{"do":"show","key":"port 1","s":1}"#,
        r#"{"key":"port 1","record":{"base":0,"cycle":1000000,"extension":0,"gates":255,"list":[]}}"#,
    ),
    (
        r#"{"do":"remove","key":"filter 3","s":1}"#,
        r#"{"entry":4}"#,
    ),
    (r#"{"do":"undo","s":1}"#, r#"{"entry":5,"of":4}"#),
    (
        r#"{"do":"show","key":"filter 3","s":1}"#,
        r#"{"key":"filter 3","record":{"gate":0,"handle":7,"max_sdu":1500,"meter":0,"oversize":true,"priority":null}}"#,
    ),
    (
        r#"{"after":3,"do":"since","s":1}"#,
        r#"{"entries":[{"entry":4,"key":"filter 3","session":1,"what":"made"},{"entry":5,"key":"filter 3","of":4,"session":1,"what":"undone"}]}"#,
    ),
    (
        r#"{"do":"create","key":"gate 0","record":{"base":0,"cycle":1000000,"extension":0,"invalid_rx":false,"ipv":null,"list":[],"octets_exceeded":false,"open":true},"s":1}"#,
        r#"{"key":"gate 0","refused":7,"why":"exists"}"#,
    ),
    (
        r#"{"do":"remove","key":"meter 9","s":1}"#,
        r#"{"key":"meter 9","refused":6,"why":"missing"}"#,
    ),
    (
        r#"{"do":"remove","key":"port 1","s":1}"#,
        r#"{"refused":3,"why":"shape"}"#,
    ),
    (
        r#"{"do":"create","key":"gate 1","record":{"base":0,"cycle":0,"extension":0,"invalid_rx":false,"ipv":null,"list":[],"octets_exceeded":false,"open":true},"s":1}"#,
        r#"{"field":"cycle","refused":4,"why":"range"}"#,
    ),
    (
        r#"{"do":"show","key":"gate 16","s":1}"#,
        r#"{"field":"key","refused":4,"why":"range"}"#,
    ),
    (
        r#"{"do":"create","key":"filter 16","record":{"gate":70000,"handle":7,"max_sdu":1500,"meter":null,"oversize":true,"priority":null},"s":1}"#,
        r#"{"field":"gate","refused":4,"why":"range"}"#,
    ),
    (
        r#"{"do":"replace","key":"port 1","record":{"base":0,"cycle":1000,"extension":0,"gates":255,"list":[[1,1],[1,1],[1,1],[1,1],[1,1],[1,1],[1,1],[1,1],[1,1],[1,1],[1,1],[1,1],[1,1],[1,1],[1,1],[1,1],[1,1]]},"s":9}"#,
        r#"{"field":"list","refused":4,"why":"range"}"#,
    ),
    (r#"{"after":5,"do":"since","s":1}"#, r#"{"entries":[]}"#),
    (
        r#"{"do":"show","key":"gate 1","s":9}"#,
        r#"{"refused":5,"why":"no_session"}"#,
    ),
];

/// Two sessions' gates and filters, of which one takes back all that is its own.
pub const OTHERS_KEPT: [Exchange; 9] = [
    (r#"{"do":"hello"}"#, r#"{"session":1}"#),
    (r#"{"do":"hello"}"#, r#"{"session":2}"#),
    (
        r#"{"do":"create","key":"gate 1","record":{"base":0,"cycle":1000000,"extension":0,"invalid_rx":false,"ipv":null,"list":[],"octets_exceeded":false,"open":true},"s":1}"#,
        r#"{"entry":1}"#,
    ),
    (
        r#"{"do":"create","key":"gate 2","record":{"base":0,"cycle":1000000,"extension":0,"invalid_rx":false,"ipv":null,"list":[],"octets_exceeded":false,"open":true},"s":2}"#,
        r#"{"entry":2}"#,
    ),
    (
        r#"{"do":"create","key":"filter 0","record":{"gate":1,"handle":7,"max_sdu":1500,"meter":null,"oversize":true,"priority":null},"s":1}"#,
        r#"{"entry":3}"#,
    ),
    (
        r#"{"do":"create","key":"filter 1","record":{"gate":2,"handle":7,"max_sdu":1500,"meter":null,"oversize":true,"priority":null},"s":2}"#,
        r#"{"entry":4}"#,
    ),
    (r#"{"do":"undo_all","s":1}"#, r#"{"count":2,"entry":6}"#),
    (r#"{"do":"list","kind":"filter","s":1}"#, r#"{"ids":[1]}"#),
    (r#"{"do":"list","kind":"gate","s":1}"#, r#"{"ids":[2]}"#),
];

/// A redo that a colleague's undo stands against, until the colleague redoes.
pub const REDONE: [Exchange; 9] = [
    (r#"{"do":"hello"}"#, r#"{"session":1}"#),
    (r#"{"do":"hello"}"#, r#"{"session":2}"#),
    (
        r#"{"do":"create","key":"meter 2","record":{"all_red":false,"aware":false,"cbs":1500,"cf":false,"cir":8000000,"drop_yellow":false,"ebs":0,"eir":0},"s":2}"#,
        r#"{"entry":1}"#,
    ),
    (
        r#"{"do":"replace","key":"meter 2","record":{"all_red":false,"aware":false,"cbs":900,"cf":false,"cir":8000000,"drop_yellow":false,"ebs":0,"eir":0},"s":1}"#,
        r#"{"entry":2}"#,
    ),
    (r#"{"do":"undo","s":1}"#, r#"{"entry":3,"of":2}"#),
    (r#"{"do":"undo","s":2}"#, r#"{"entry":4,"of":1}"#),
    (
        r#"{"do":"redo","s":1}"#,
        r#"{"other":4,"refused":13,"why":"redo_conflict"}"#,
    ),
    (r#"{"do":"redo","s":2}"#, r#"{"entry":5,"of":4}"#),
    (r#"{"do":"redo","s":1}"#, r#"{"entry":6,"of":3}"#),
];

/// How a line may be spelled.
#[derive(Clone, Copy, Debug, PartialEq, Eq)]
pub enum Spelling {
    /// Compact, the members in ascending order, as the service writes it.
    Compact,
    /// With a space behind each comma and each colon.
    Spaced,
    /// The members of the command from the last to the first.
    Reversed,
    /// Each letter of each text as an escape.
    Escaped,
}

// Whether each byte lies within a text, its quotes left out, and how many brackets are open before it.
fn places(alloc: Global, line: &[u8]) -> Result<Vec<(bool, u32)>, AllocError> {
    let mut places = Vec::with_capacity(alloc, line.len())?;
    let mut is_text = false;
    let mut depth = 0u32;
    for byte in line {
        if *byte == b'"' {
            is_text = !is_text;
            places.push((false, depth))?;
            continue;
        }
        if !is_text && (*byte == b'}' || *byte == b']') {
            depth = depth.saturating_sub(1);
        }
        places.push((is_text, depth))?;
        if !is_text && (*byte == b'{' || *byte == b'[') {
            depth = depth.saturating_add(1);
        }
    }
    Ok(places)
}

fn spaced(alloc: Global, line: &[u8]) -> Result<Vec<u8>, AllocError> {
    let places = places(alloc, line)?;
    let mut text = Vec::new(alloc);
    for (byte, (is_text, _)) in line.iter().zip(places.iter()) {
        text.push(*byte)?;
        if !*is_text && (*byte == b',' || *byte == b':') {
            text.push(b' ')?;
        }
    }
    Ok(text)
}

fn escaped(alloc: Global, line: &[u8]) -> Result<Vec<u8>, AllocError> {
    let places = places(alloc, line)?;
    let mut text = Vec::new(alloc);
    for (byte, (is_text, _)) in line.iter().zip(places.iter()) {
        if *is_text && byte.is_ascii_alphabetic() {
            text.extend_from_slice(format!(in alloc; "\\u{:04x}", u32::from(*byte))?.as_bytes())?;
        } else {
            text.push(*byte)?;
        }
    }
    Ok(text)
}

// The members of the command, between its outer brackets.
fn members(alloc: Global, line: &[u8]) -> Result<Vec<Vec<u8>>, AllocError> {
    let places = places(alloc, line)?;
    let mut members = Vec::new(alloc);
    let mut member = Vec::new(alloc);
    for (byte, (is_text, depth)) in line.iter().zip(places.iter()) {
        if *depth == 0 {
            continue;
        }
        if *byte == b',' && *depth == 1 && !*is_text {
            members.push(member)?;
            member = Vec::new(alloc);
        } else {
            member.push(*byte)?;
        }
    }
    members.push(member)?;
    Ok(members)
}

fn reversed(alloc: Global, line: &[u8]) -> Result<Vec<u8>, AllocError> {
    let mut text = Vec::from_slice(alloc, b"{")?;
    let mut comma = b"".as_slice();
    for member in members(alloc, line)?.iter().rev() {
        text.extend_from_slice(comma)?;
        text.extend_from_slice(member.as_slice())?;
        comma = b",".as_slice();
    }
    text.extend_from_slice(b"}")?;
    Ok(text)
}

/// The line in that spelling.
pub fn spelled(alloc: Global, line: &str, spelling: Spelling) -> Result<Vec<u8>, AllocError> {
    let line = line.as_bytes();
    match spelling {
        Spelling::Compact => Vec::from_slice(alloc, line),
        Spelling::Spaced => spaced(alloc, line),
        Spelling::Reversed => reversed(alloc, line),
        Spelling::Escaped => escaped(alloc, line),
    }
}

/// The command lines in that spelling, each with its line feed.
pub fn input_of(
    alloc: Global,
    script: &[Exchange],
    spelling: Spelling,
) -> Result<Vec<u8>, AllocError> {
    let mut input = Vec::new(alloc);
    for (line, _) in script {
        input.extend_from_slice(spelled(alloc, line, spelling)?.as_slice())?;
        input.push(b'\n')?;
    }
    Ok(input)
}

/// The reply lines, each with its line feed.
pub fn replies_of(alloc: Global, script: &[Exchange]) -> Result<Vec<u8>, AllocError> {
    let mut replies = Vec::new(alloc);
    for (_, reply) in script {
        replies.extend_from_slice(reply.as_bytes())?;
        replies.push(b'\n')?;
    }
    Ok(replies)
}
