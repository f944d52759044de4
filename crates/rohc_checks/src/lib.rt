//! The ROHC checks (CRCs) and the Internet checksum. No function allocates memory, and none fails.
#![tactic(auto)]

mod crc;
pub mod laws;
mod sum;
mod tables;

pub use crc::{crc3, crc7, crc8};
pub use sum::{internet_sum, sum_of_exchanged, with_carries};
