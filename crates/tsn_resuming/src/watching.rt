//! Who is told of each line of a journal file as it is stepped.
use tsn_bridge::bridge::Bridge;

/// It is told of the lines in their order, each behind its step.
pub trait Watcher {
    /// The first line: its setup opened the bridge.
    fn began(&mut self, setup: &[u8], stamp: &[u8]);

    /// A further line: the bridge accepted its command, and is as this left it.
    fn stepped(&mut self, bridge: &Bridge, stamp: &[u8], command: &[u8]);
}

/// Nobody is told.
#[derive(Clone, Copy, Debug, PartialEq, Eq)]
pub struct Unwatched;

impl Watcher for Unwatched {
    fn began(&mut self, _setup: &[u8], _stamp: &[u8]) {}

    fn stepped(&mut self, _bridge: &Bridge, _stamp: &[u8], _command: &[u8]) {}
}
