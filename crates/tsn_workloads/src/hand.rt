//! How records and commands are spelled: as the service writes them, as Python's `json.dumps` does, and in a setup.

use crate::text::Text;

/// A spelling.
#[derive(Clone, Copy, PartialEq, Eq)]
pub enum Hand {
    /// The compact one of the service, with no spaces.
    Compact,
    /// With a space behind each colon and comma.
    Spaced,
    /// A line of a setup for each member. One that is none is left out.
    Setup,
}

impl Hand {
    /// What stands between two values.
    pub fn comma(self) -> &'static str {
        match self {
            Hand::Compact => ",",
            _ => ", ",
        }
    }

    /// A member's name, up to its value.
    pub fn name(self, text: &mut Text, is_first: bool, name: &str) {
        if self == Hand::Setup {
            text.put("\n");
            text.put(name);
            text.put(" = ");
            return;
        }
        if !is_first {
            text.put(self.comma());
        }
        text.put("\"");
        text.put(name);
        text.put(if self == Hand::Compact { "\":" } else { "\": " });
    }

    pub fn number(self, text: &mut Text, is_first: bool, name: &str, number: u64) {
        self.name(text, is_first, name);
        text.number(number);
    }

    pub fn number_or_null(self, text: &mut Text, is_first: bool, name: &str, number: Option<u64>) {
        if number.is_none() && self == Hand::Setup {
            return;
        }
        self.name(text, is_first, name);
        text.with_or_null("", number);
    }

    pub fn flag(self, text: &mut Text, is_first: bool, name: &str, flag: bool) {
        self.name(text, is_first, name);
        text.with_flag("", flag);
    }

    /// A member that is a word.
    pub fn word(self, text: &mut Text, is_first: bool, name: &str, word: &str) {
        self.name(text, is_first, name);
        text.put("\"");
        text.put(word);
        text.put("\"");
    }

    /// The member `key` of a command.
    pub fn key(self, text: &mut Text, is_first: bool, kind: &str, number: u64) {
        self.name(text, is_first, "key");
        text.put("\"");
        text.put(kind);
        text.with(" ", number);
        text.put("\"");
    }

    /// A command of a session on an instance that has no other member.
    pub fn on_key(self, text: &mut Text, word: &str, kind: &str, number: u64, session: u64) {
        text.put("{");
        self.word(text, true, "do", word);
        self.key(text, false, kind, number);
        self.number(text, false, "s", session);
        text.put("}\n");
    }
}
