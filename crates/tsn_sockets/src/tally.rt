//! What the replies of a connection tell of it, as their bytes go by in whatever pieces.
ghost use Rattle.std.specs.Prelude.{◌≤◌};

use memchr::memchr;

/// How many of a reply's first bytes are looked at. What a refusal has ahead of its number is shorter.
const HEAD: usize = 80;

/// How many members a refusal has at most up to its number.
const MEMBERS: u32 = 3;

/// The member that refusals alone have.
const REFUSED: &[u8] = b"\"refused\":";

/// How the reply to a hello or a resume begins, and no other.
const SESSION: &[u8] = b"{\"session\":";

/// What replies told.
#[derive(Clone, Copy, Debug, PartialEq, Eq)]
pub struct Told {
    /// The session of the latest hello or resume that was not refused.
    pub session: Option<u64>,
    /// How many lines were answered.
    pub lines: u64,
    /// How many of these were refused.
    pub refused: u64,
}

/// What the replies that ended told, and the first bytes of the one that has not.
#[derive(Drop)]
pub(crate) struct Tally {
    head: [u8; HEAD],
    len: usize,
    told: Told,
    ghost fits: { len ≤ 80 },
}

// What stands behind the first comma.
fn behind_comma(text: &[u8]) -> Option<&[u8]> {
    let comma = memchr(b',', text)?;
    Some(&text[comma + 1..])
}

// Whether a reply, of which these are the first bytes, is a refusal. A comma in a text has no quotation mark behind it.
fn is_refusal(reply: &[u8]) -> bool {
    let mut members = reply.get(1..).unwrap_or(&[]);
    for _ in 0..MEMBERS {
        if members.starts_with(REFUSED) {
            return true;
        }
        match behind_comma(members) {
            Some(others) => members = others,
            None => return false,
        }
    }
    false
}

// The session that a reply gives, of which these are the first bytes.
fn session_in(reply: &[u8]) -> Option<u64> {
    let digits = reply.strip_prefix(SESSION)?;
    let mut session = 0u64;
    for byte in digits {
        if !byte.is_ascii_digit() {
            break;
        }
        session = session
            .saturating_mul(10)
            .saturating_add(u64::from(*byte - b'0'));
    }
    Some(session)
}

impl Tally {
    /// No reply yet.
    pub(crate) fn new() -> Tally {
        Tally {
            head: [0u8; HEAD],
            len: 0,
            told: Told {
                session: None,
                lines: 0,
                refused: 0,
            },
        }
    }

    /// What the replies told.
    pub(crate) fn told(&self) -> Told {
        self.told
    }

    // Goes on by a part of a reply.
    fn go_on(&mut self, part: &[u8]) {
        let count = part.len().min(HEAD - self.len);
        self.head[self.len..self.len + count].copy_from_slice(&part[..count]);
        self.len += count;
    }

    // Ends a reply, at its line feed.
    fn end(&mut self) {
        let reply = &self.head[..self.len];
        self.told.lines = self.told.lines.saturating_add(1);
        if is_refusal(reply) {
            self.told.refused = self.told.refused.saturating_add(1);
        } else if let Some(session) = session_in(reply) {
            self.told.session = Some(session);
        }
        self.len = 0;
    }

    /// Goes on by a piece of the replies' text.
    pub(crate) fn read(&mut self, text: &[u8]) {
        let mut done = 0;
        'replies: while done < text.len() {
            match memchr(b'\n', &text[done..]) {
                Some(end) => {
                    self.go_on(&text[done..done + end]);
                    self.end();
                    done += end + 1;
                }
                None => {
                    self.go_on(&text[done..]);
                    return;
                }
            }
        }
    }
}
