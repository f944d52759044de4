//! The tests of saves over a simulated disk, of moments, of dates, and of lines.
//!
//! They stand apart from these crates, so that each of those is proved once, and not again with its tests.
#![tactic(auto)]

#[cfg(test)]
mod dates;
#[cfg(test)]
mod kills;
#[cfg(test)]
mod lines;
#[cfg(test)]
mod moments;
