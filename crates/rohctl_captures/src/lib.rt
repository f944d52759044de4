//! The subcommands of `rohctl` that read captures: `decompress`, `script` and `feed`.
#![tactic(auto)]

mod again;
mod annotated;
mod bulk;
mod carriage;
mod datagrams;
mod feed;
mod feeder;
mod framing_words;
mod held;
mod lines_out;
mod narrow;
mod nothing;
mod part;
mod payloads;
mod place;
mod queue;
mod rules;
mod script;
mod sender;
mod source;
mod time_text;
mod timed;
mod unmatched;

pub use again::take_all;
pub use annotated::{Annotator, Arrival};
pub use bulk::{Decompress, capture_end, run_decompress};
pub use carriage::Carriage;
pub use feed::{Feed, run_feed};
pub use framing_words::framing_of;
pub use held::{Held, hold};
pub use narrow::{Narrow, Seen, Time, Times, Which, no_packet_between, time_of, unshown_end};
pub use nothing::nothing_end;
pub use payloads::{Payloads, payloads_of};
pub use place::{Place, Span, Unit, is_within, numbers_of};
pub use rules::{RuleWords, check_links, rules_of};
pub use script::{Part, Script, run_script};
pub use source::{Front, Rest, take_source};
pub use time_text::Shown;
pub use timed::put_timed;
pub use unmatched::no_frame;
