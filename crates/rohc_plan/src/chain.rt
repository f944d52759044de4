//! The outcomes of a window as a Markov chain, in which each packet fails with the same chance.

use crate::outcomes::{Outcomes, Window};
use std::alloc::{AllocError, Global};

/// After so many packets the share that stays unfilled is taken to be the same at each packet.
const PACKETS: u32 = 2_000;

/// A difference of shares that counts as none.
const NONE: f64 = 1e-15;

/// A window whose outcomes fail with a chance, each alone.
#[derive(Clone, Copy)]
pub struct Chain {
    window: Window,
    failing: f64,
}

/// What one packet does to the chances of all outcomes.
#[derive(Clone, Copy)]
struct Turn {
    /// The chance that the window isn't filled yet.
    left: f64,
    /// The chance that this packet filled it.
    filled: f64,
}

impl Chain {
    /// The chain of a window, where a packet fails with this chance.
    pub fn new(window: Window, failing: f64) -> Self {
        Chain { window, failing }
    }

    /// Moves the chances of all outcomes on by a packet.
    fn turn(&self, before: &[f64], after: &mut [f64]) -> Turn {
        after.fill(0.0);
        let mut turn = Turn {
            left: 0.0,
            filled: 0.0,
        };
        for digits in 0..self.window.states() {
            let outcomes = Outcomes { digits };
            let chance = chance_of(before, outcomes);
            let fails = chance * self.failing;
            let good = chance - fails;
            add(after, self.window.after(outcomes, false), good);
            turn.left += good;
            if self.window.is_filled(outcomes) {
                turn.filled += fails;
            } else {
                add(after, self.window.after(outcomes, true), fails);
                turn.left += fails;
            }
        }
        turn
    }

    /// How many packets pass on average, from an empty window, until it is filled.
    ///
    /// The chances of the first packets are followed one by one, until the share that stays unfilled is the same at
    /// each packet; from there on it is a geometric series.
    pub fn mean_packets(&self, alloc: Global) -> Result<f64, AllocError> {
        let states = self.window.states() as usize;
        let mut before = vec![in alloc; 0.0f64; states]?;
        let mut after = vec![in alloc; 0.0f64; states]?;
        add(&mut before, Outcomes { digits: 0 }, 1.0);
        let mut packets = 0.0;
        let mut left = 1.0;
        let mut leaving = 0.0;
        for _ in 0..PACKETS {
            let turn = self.turn(&before, &mut after);
            packets += left;
            let before_leaving = leaving;
            leaving = turn.filled / left;
            left = turn.left;
            std::mem::swap(&mut before, &mut after);
            if left < NONE || is_same(leaving, before_leaving) {
                break;
            }
        }
        Ok(packets + left / leaving)
    }
}

/// Whether two shares are the same, but for what rounding leaves.
fn is_same(one: f64, other: f64) -> bool {
    one > 0.0 && (one - other).abs() <= one * 1e-12
}

/// The chance of the outcomes.
fn chance_of(chances: &[f64], outcomes: Outcomes) -> f64 {
    match chances.get(outcomes.digits as usize) {
        Some(chance) => *chance,
        None => 0.0,
    }
}

/// Adds a chance to that of the outcomes.
fn add(chances: &mut [f64], outcomes: Outcomes, chance: f64) {
    if let Some(sum) = chances.get_mut(outcomes.digits as usize) {
        *sum += chance;
    }
}
