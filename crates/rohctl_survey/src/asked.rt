//! What is asked of `survey` and `find`.

use crate::address::Endpoint;
use rohctl_captures::RuleWords;

/// What is asked of `survey`.
#[derive(Clone, Copy)]
pub struct Survey<'a> {
    /// The script or the capture; `-` is standard input.
    pub input: &'a str,
    /// Which link a frame of a capture belongs to.
    pub rules: RuleWords<'a>,
    /// The links file that is written, if one is asked for.
    pub links: Option<&'a str>,
    pub json: bool,
}

/// What is asked of `find`.
#[derive(Clone, Copy)]
pub struct Sought<'a> {
    /// The links file.
    pub links: &'a str,
    /// The state file whose contexts are there before the first packet.
    pub state: Option<&'a str>,
    /// The script or the capture, if one is read; `-` is standard input.
    pub input: Option<&'a str>,
    /// Which link a frame of a capture belongs to.
    pub rules: RuleWords<'a>,
    /// An end of the call.
    pub first: Endpoint,
    /// The other end, if it is given.
    pub second: Option<Endpoint>,
    pub json: bool,
}
