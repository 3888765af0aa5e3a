//! What is recorded of a bridge, so that it lasts, and that a replay of it leads back.
//!
//! A `Recorder` is a machine, which a desk can serve as it serves a bridge: it answers as the bridge does, and beside
//! it keeps a text with a line for each accepted command that changes what lasts. Whoever keeps the lines can begin
//! again from the setup: `replay` steps a bridge by one recorded command after another, and comes to where it was.
//!
//! `specs/Lasting.antt` says what lasts of a state, `specs/Recording.antt` what is recorded of what was asked and
//! answered, `specs/Handling.antt` how a bridge with a recorder differs from the machine of `tsn_bridge`, and
//! `specs/Replaying.antt` what a replay is. The contract of a recorder is `Records` in `specs/Recorder.antt`; the
//! theorems are the contracts in `laws`.
#![tactic(auto)]

pub mod laws;
pub mod recorder;
pub mod replay;
