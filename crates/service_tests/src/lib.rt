//! The tests of what stands on the concentrator: links files, replays, the server and the program.
//!
//! They stand apart from these crates, so that each of those is proved once, and not again with its tests.
#![tactic(auto)]

#[cfg(test)]
mod examples;
#[cfg(test)]
mod links;
#[cfg(test)]
mod program;
#[cfg(test)]
mod replay;
#[cfg(test)]
mod serve;
