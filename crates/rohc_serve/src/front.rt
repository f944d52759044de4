//! The front of a server: where datagrams come from and go to.

ghost use Rattle.std.specs.Prelude.{None, ◌≤◌, [], ◌∷◌, length, List, Option, IfSome};
ghost use Rattle.rohc_serve.specs.Acts.{Act, Sent, AddsActs, received};

/// Where datagrams come from and go to, such as a socket on 127.0.0.1 with a clock.
pub trait Front {
    // What was asked of the front and what it answered, in order, if that is known.
    ghost acts: { Self → Option (List Act) } = { λ _. None };

    /// Receives a datagram into the buffer. Returns its length, which is at most the buffer's, and the
    /// arrival time in milliseconds. `None` is a failed receive.
    fn receive(&mut self, buffer: &mut [u8]) -> Option<(usize, u64)>
        ensures within { IfSome result (λ given. given.0 ≤ length buffer.new) }
        ensures told { AddsActs (acts self.old) (acts self.new) (received result buffer.new ∷ []) };

    /// Sends a datagram to a port. Returns whether it went out.
    fn send(&mut self, port: u16, octets: &[u8]) -> bool
        ensures told { AddsActs (acts self.old) (acts self.new)
            (Sent (record { port = port; octets = octets.now; gone = result }) ∷ []) };
}
