//! Why octets are no saved context.

/// Why octets are no saved context: the first fault from the left. Its place is told by how many octets are left from
/// there to the end, so that a context within a longer text tells the place in the whole.
#[derive(Clone, Copy, Debug, PartialEq, Eq)]
pub enum ContextFault {
    /// The octets end within the context.
    Short,
    /// A value that no context has.
    Bad {
        /// How many octets are left, from the first octet of the value.
        left: usize,
    },
    /// Octets follow the context.
    Long {
        /// How many.
        left: usize,
    },
}
