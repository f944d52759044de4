//! The program `rohctl`, from the words of its command line to how it ends.
//!
//! It stands apart from `main`, so that tests can call it.
#![tactic(auto)]

mod capture_words;
mod command;
mod control;
mod explain_words;
mod gateway;
mod keeping;
mod narrow_words;
mod program;
mod recording;
mod replaying;
mod report_words;
mod seeking_words;
mod verify;
mod words_in;

pub use program::run;
