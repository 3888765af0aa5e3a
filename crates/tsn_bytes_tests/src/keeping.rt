//! Tests of `tsn_keeping` and `tsn_device` over their public calls alone: each call of a device fails in turn, and what
//! a crash leaves then reads back.
//!
//! They stand beside the crates and not in them, so that proving them does not prove the crates again.
mod reading;
mod tests;
mod working;
