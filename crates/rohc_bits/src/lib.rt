//! Octets and bits: a cursor over octets, octets in a buffer, self-describing values (RFC 3095 4.5.6), and bit strings
//! with their width.
#![tactic(auto)]

mod bits;
mod cursor;
pub mod laws;
mod place;
pub mod reading;
mod value;

pub use bits::Bits;
pub use cursor::Cursor;
pub use place::put_behind;
pub use value::{read_value, write_value};
