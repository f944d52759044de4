//! The subcommands `survey` and `find` of `rohctl`: what links and calls an input has.
#![tactic(auto)]

mod address;
mod asked;
mod counted;
mod evidence;
mod find;
mod find_text;
mod found;
mod gathered;
mod survey;
mod survey_json;
mod survey_text;
mod tally;

pub use address::{Endpoint, endpoint_of, is_between};
pub use asked::{Sought, Survey};
pub use evidence::{ir_cid, kind_by};
pub use find::run_find;
pub use survey::run_survey;
