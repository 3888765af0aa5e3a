//! The encoding of what a bridge tells, as compact JSON: numbers, keys, records, lists of numbers, entries of the
//! journal, sessions, and the text of a setup.
//!
//! What is encoded goes into a short text, which takes no memory, piece by piece, or from there to a writer of bytes.
//! It relies on `tsn_records` for what the value of a record is, on `tsn_entries` for entries, and on `tsn_bytes` for
//! writers. `tsn_replies` tells replies by it, and `tsn_spelling` command lines; nothing here knows of a bridge.
#![tactic(auto)]

mod digits;
mod session_names;
mod sessions;
mod setup;
mod shown;
mod text;
mod told;

pub use session_names::{LONGEST_NAME_TEXT, push_name_or_null, push_session_name};
pub use sessions::write_sessions;
pub use setup::{LONGEST_ESCAPE, write_setup};
pub use shown::{
    LONGEST_ITEM, LONGEST_KEY, ShownItem, Written, lent, plain_priority, push_filter, push_flag,
    push_gate_end, push_gate_front, push_key, push_key_text, push_meter, push_number, push_or_null,
    push_port_front, write_ids, write_lent_record, write_listed,
};
pub use text::{CAPACITY, MOST_DIGITS, ShortText};
pub use told::{write_entries, write_told};
