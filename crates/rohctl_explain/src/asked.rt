//! What is asked of `explain`.

use rohctl_captures::{RuleWords, Times, Which};

/// How packets are told.
#[derive(Clone, Copy, PartialEq, Eq)]
pub enum Telling {
    /// All that is known, for a reader.
    Whole,
    /// One line per packet.
    Brief,
    /// JSON, one object per line.
    Json,
}

/// Where the packets stand.
#[derive(Drop)]
pub enum Source<'a> {
    /// In a script or a capture, with the links of another file; `-` is standard input.
    Input {
        links: &'a str,
        path: &'a str,
        rules: RuleWords<'a>,
    },
    /// In these words, with commas between packets; all are packets of a link of this file. An only word may lead to an
    /// input instead.
    Text {
        links: &'a str,
        link: u16,
        words: Vec<&'a str>,
        rules: RuleWords<'a>,
    },
    /// In these words, with commas between packets; all are packets of a link with usual settings.
    Words {
        words: Vec<&'a str>,
        large: bool,
    },
}

/// What is asked of `explain`.
#[derive(Drop)]
pub struct Asked<'a> {
    /// The state file whose contexts are there before the first packet.
    pub state: Option<&'a str>,
    pub source: Source<'a>,
    /// How long the payloads of links are, as LINK=N with commas between them.
    pub payload: Option<&'a str>,
    pub which: Which,
    /// Between which times packets are told.
    pub times: Times,
    pub telling: Telling,
}
