//! Datagrams that wait to be sent, in order, in memory that is allocated once.
#![tactic(auto)]

mod outbox;

pub use outbox::{MOST, Outbox, ROOM, Waiting};

#[cfg(test)]
mod tests;
