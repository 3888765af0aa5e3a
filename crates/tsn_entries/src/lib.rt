//! The entries of a journal: which session did what.
//!
//! An entry is an accepted edit (Made), the taking back of one (Undone), the taking back of that (Redone), an act on a
//! gate list (Acted) or a settle (Settled). Which entries stand, and what each finder looks for, is defined here over
//! the list of entries alone: `specs/Entries.antt`, `specs/Finding.antt`. It relies on `tsn_edit` for changes. The
//! journal keeps entries, a reply tells them, and a command asks for them.
#![tactic(auto)]

pub mod entries;
pub mod sessions;
