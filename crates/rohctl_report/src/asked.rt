//! What is asked of `report`.

use rohctl_captures::{RuleWords, Times, Which};

/// What is asked of `report`.
#[derive(Clone, Copy)]
pub struct Asked<'a> {
    /// The links file.
    pub links: &'a str,
    /// The state file whose contexts are there before the first packet.
    pub state: Option<&'a str>,
    /// The script or the capture; `-` is standard input.
    pub input: &'a str,
    /// The page that is written; `-` is standard output.
    pub output: &'a str,
    /// Which link a frame of a capture belongs to.
    pub rules: RuleWords<'a>,
    /// How long the payloads of links are, as LINK=N with commas between them.
    pub payload: Option<&'a str>,
    /// Which packets are shown. Those before them lead to their contexts.
    pub which: Which,
    /// Between which times packets are shown.
    pub times: Times,
}
