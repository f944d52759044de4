//! The polynomials of a header's checks.

/// The polynomial of a header's check (RFC 3095 5.9.2).
#[derive(Clone, Copy)]
pub(crate) enum Polynomial {
    /// The polynomial of the 3-bit check.
    Three,
    /// The polynomial of the 7-bit check.
    Seven,
}
