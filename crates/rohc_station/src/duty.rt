//! How datagrams are answered.

/// How a datagram is answered.
#[derive(Clone, Copy)]
pub struct Duty {
    /// Whether no call may begin.
    pub is_draining: bool,
    /// Whether each feedback element is sent behind the number of its link.
    pub is_numbered: bool,
}
