//! The flow meter of per-stream filtering and policing: two counts of tokens that colour frames.
//!
//! A `Bucket` colours frames green, yellow or red by a meter's rates and burst sizes (802.1Q-2018, 8.6.5, after the
//! manner of MEF 10.3 with one flow). A token is a billionth of a bit, so every refill is exact and nothing is rounded.
//! What a bucket holds is defined in `specs/` as a fold over marks and clips, and `laws` says what it lets through over
//! time. The filter chain keeps a bucket for each flow meter. Nothing here takes memory.
#![tactic(auto)]

pub mod bucket;
pub mod laws;
