//! Text that is made in front of its reader, and given away in pieces.
ghost use Rattle.std.specs.Prelude.{◌≤◌, length};

use itoa::Buffer;
use std::alloc::Global;

/// Text of which the front was given away. Where memory is wanting it says so, and goes on without what had no room.
#[derive(Drop)]
pub struct Text {
    bytes: Vec<u8>,
    given: usize,
    lacks_memory: bool,
}

impl Text {
    pub fn new(alloc: Global) -> Text {
        Text {
            bytes: Vec::new(alloc),
            given: 0,
            lacks_memory: false,
        }
    }

    pub fn lacks_memory(&self) -> bool {
        self.lacks_memory
    }

    /// How many bytes are not given yet.
    pub fn len(&self) -> usize {
        self.bytes.len().saturating_sub(self.given)
    }

    /// All the bytes, those that were given too.
    pub fn as_slice(&self) -> &[u8] {
        self.bytes.as_slice()
    }

    pub fn put_bytes(&mut self, bytes: &[u8]) {
        if self.bytes.extend_from_slice(bytes).is_err() {
            self.lacks_memory = true;
        }
    }

    pub fn put(&mut self, text: &str) {
        self.put_bytes(text.as_bytes());
    }

    /// Puts a number in decimal.
    pub fn number(&mut self, number: u64) {
        let mut digits = Buffer::new();
        self.put(digits.format(number));
    }

    /// Puts a text and a number behind it.
    pub fn with(&mut self, text: &str, number: u64) {
        self.put(text);
        self.number(number);
    }

    /// Puts a text and behind it a number, or null where there is none.
    pub fn with_or_null(&mut self, text: &str, number: Option<u64>) {
        self.put(text);
        match number {
            Some(number) => self.number(number),
            None => self.put("null"),
        }
    }

    /// Puts a text and behind it true or false.
    pub fn with_flag(&mut self, text: &str, flag: bool) {
        self.put(text);
        self.put(if flag { "true" } else { "false" });
    }

    /// Forgets all of it.
    pub fn clear(&mut self) {
        self.bytes.clear();
        self.given = 0;
    }

    /// Gives bytes to the front of the buffer, as many as fit or as there are.
    pub fn give(&mut self, buffer: &mut [u8]) -> usize
        ensures { result ≤ length buffer.old }
    {
        let rest = self.bytes.len().saturating_sub(self.given);
        let count = rest.min(buffer.len());
        if count == 0 {
            return 0;
        }
        buffer[..count].copy_from_slice(&self.bytes[self.given..self.given + count]);
        self.given += count;
        count
    }
}
