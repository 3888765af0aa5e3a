//! Names that stand in what is told, and what members may be.
use std::alloc::{AllocError, Global};
use tsn_records::allowed::Allowed;

/// The most bytes of a name that is told.
const LONGEST_NAME: usize = 60;

/// Whether a name may stand in a line as it is.
pub fn is_plain(name: &str) -> bool {
    if name.is_empty() || LONGEST_NAME < name.len() {
        return false;
    }
    for byte in name.as_bytes() {
        if *byte < b' ' || 126 < *byte {
            return false;
        }
    }
    true
}

/// A name as it is told: in quotes, or that it can't be.
pub fn as_told(alloc: Global, name: &str) -> Result<String, AllocError> {
    if is_plain(name) {
        format!(in alloc; "\"{name}\"")
    } else {
        String::from_str(alloc, "of such a name")
    }
}

/// What a member may be, in words. This word says that it may be none.
pub fn allowed_text(alloc: Global, allowed: Allowed, none: &str) -> Result<String, AllocError> {
    match allowed {
        Allowed::Number(least, most) => format!(in alloc; "{least} to {most}"),
        Allowed::NumberOrNone(least, most) => format!(in alloc; "{least} to {most}, or {none},"),
        Allowed::Flag => String::from_str(alloc, "true or false"),
        Allowed::List(most) => format!(in alloc; "an array of up to {most}"),
        Allowed::Tables => String::from_str(alloc, "an array of tables"),
    }
}
