//! What answers requests.

/// A machine that answers one request at a time.
pub trait Machine {
    type Request;

    type Reply;

    /// What a step may be: of the machine before it, the request, the reply and the machine after it.
    ghost steps: { Self → Self.Request → Self.Reply → Self → Type 0 };

    /// Answers a request, and goes on to its next state. It takes no lock: whoever shares it steps it in one thread
    /// at a time.
    fn step(&mut self, request: Self::Request) -> Self::Reply
        ensures { steps self.old request result self.new };
}
