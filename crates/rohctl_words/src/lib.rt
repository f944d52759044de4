//! The words of the command line of `rohctl`: its subcommands, options and their help.
//!
//! They stand apart from what is done with them, since they need no other crate of the workspace.
#![tactic(auto)]

mod captures;
mod gateway;
mod options;
mod seeking;
mod words;

pub use words::command;
