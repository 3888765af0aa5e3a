//! What the words of a command line ask for: to answer a script, to print the states of a port, to serve connections,
//! to look at a setup or at a journal, or to show or refuse by a text.
#![tactic(auto)]

mod arguments;
mod kept;
mod look;
mod serving;
mod values;

pub use arguments::{Asked, Listing, read_words};
pub use kept::{Kept, Syncs};
pub use look::Look;
pub use serving::Serving;
