//! The subcommand `explain` of `rohctl`: each packet of a script or a capture, with why it got its answer; and what
//! `decompress --pcapng` says of each.
#![tactic(auto)]

mod annotate;
mod asked;
mod assumed;
mod decoding;
mod element;
mod element_text;
mod expected;
mod explain;
mod explain_json;
mod explain_text;
mod falls;
mod field_text;
mod held;
mod input;
mod packet;
mod rebuilt;
mod rebuilt_text;
mod run;

pub use annotate::Explainer;
pub use asked::{Asked, Source, Telling};
pub use assumed::size_word;
pub use decoding::Decoding;
pub use element::{Meaning, ToldElement};
pub use explain::run_explain;
pub use explain_text::{format_name, state_name, state_word, write_flow, write_whole};
pub use falls::{Fall, Falls, is_fall};
pub use held::{fixed_in, state_in};
pub use packet::{Explained, Got, explain_packet};
pub use rebuilt::Rebuilt;
