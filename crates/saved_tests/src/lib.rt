//! The tests of saved contexts, and of the gateway's station, which saves them.
//!
//! They stand apart from these crates, so that each of those is proved once, and not again with its tests.
#![tactic(auto)]

#[cfg(test)]
mod examples;
#[cfg(test)]
mod saved;
#[cfg(test)]
mod service;
#[cfg(test)]
mod station;
