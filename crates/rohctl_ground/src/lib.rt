//! What the subcommands of `rohctl` share: how a run ends, the links file and the lines of a script as rohcd takes
//! them, and files by name.
#![tactic(auto)]

mod apart;
mod ending;
mod hex_word;
mod lines;
mod links;
mod printable;
mod progress;
mod state;
mod streams;
mod usual;

pub use apart::{keep_apart, overwritten};
pub use ending::{
    CAPTURE, Ending, Misuse, Nothing, STREAM, input_name, unprinted, unread, unwritten,
};
pub use lines::{Line, Stop, Taker, read_packets, read_script};
pub use links::{concentrator_of, good_links, links_text, text_at};
pub use printable::{Printable, printed};
pub use rohc_text::{Reason, nearest_name, shown_word, write_octets, write_quoted, write_value};
pub use state::{Beginning, concentrator_from, octets_at, restored};
pub use streams::{
    Reading, Screen, Source, Target, Told, Written, is_capture_front, make_target, open_file,
    open_source, open_told, size_of, target_of,
};
pub use usual::usual_settings;
