//! The tests of the parts, what no row of test data can say, of contexts and of the concentrator.
//!
//! They stand apart from these crates, so that each of those is proved once, and not again with its tests.
#![tactic(auto)]

#[cfg(test)]
mod asked;
#[cfg(test)]
mod bits;
#[cfg(test)]
mod call;
#[cfg(test)]
mod chain;
#[cfg(test)]
mod checks;
#[cfg(test)]
mod concentrator;
#[cfg(test)]
mod context;
#[cfg(test)]
mod examples;
#[cfg(test)]
mod forms;
#[cfg(test)]
mod frame;
#[cfg(test)]
mod header;
#[cfg(test)]
mod saved;
#[cfg(test)]
mod together;
