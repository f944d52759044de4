//! Texts for readers: quoted texts and values, the name that a misspelled one may have meant, and why a file, a socket or
//! a TOML text failed.
#![tactic(auto)]

pub mod laws;
mod nearest;
mod quoted;
mod reason;
mod toml_fault;

pub use nearest::nearest_name;
pub use quoted::{shown_word, write_json_text, write_octets, write_quoted, write_value};
pub use reason::Reason;
pub use toml_fault::{error_line, write_toml_reason};
