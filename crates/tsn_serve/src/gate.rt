//! What stands ahead of the turns of a connection: a place to hold one back or to count them.

/// Who is told of a connection's turns and replies. It may wait in either call, by means of its own.
pub trait Gate {
    /// Ahead of each turn of this connection.
    fn before(&self, connection: u32);

    /// After each reply of this connection, once the writer took it.
    fn answered(&self, connection: u32);

    /// Whether a call of it may wait. If not, the turns for lines that a connection has at hand follow each other, and
    /// other connections' lots wait meanwhile.
    fn may_wait(&self) -> bool {
        true
    }
}

/// A gate that is always open.
#[derive(Clone, Copy, Debug)]
pub struct Free;

impl Gate for Free {
    fn before(&self, _connection: u32) {}

    fn answered(&self, _connection: u32) {}

    fn may_wait(&self) -> bool {
        false
    }
}
