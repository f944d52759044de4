//! The subcommands that show which links and calls an input has: `survey` and `find`.

use crate::captures::with_rules;
use crate::gateway::{control, named};
use crate::options::{Given, argument, arguments, flag, valued};
use clap::Command;
use std::alloc::AllocError;

/// The subcommand `survey`.
pub(crate) fn survey_words<'a>(given: Given<'_>) -> Result<Command<'a>, AllocError> {
    with_rules(
        given,
        "survey",
        "Show what a script or a capture has, before there is a links file",
        &[
            valued(
                "links",
                "FILE",
                "Write a links file to start from to this file",
            ),
            flag("json", "Write JSON, one object per line"),
            argument(
                "INPUT",
                "The script or the capture, pcap or pcapng; - or none is standard input",
            ),
        ],
    )
}

/// The subcommand `find`.
pub(crate) fn find_words<'a>(given: Given<'_>) -> Result<Command<'a>, AllocError> {
    with_rules(
        given,
        "find",
        "Find the link and the CID of a call by its addresses, also in a running gateway",
        &[
            valued("links", "FILE", "The links file").required(),
            valued(
                "state",
                "FILE",
                "Begin with the contexts of this state file of rohc-gateway",
            ),
            valued(
                "input",
                "FILE",
                "The script or the capture to search; - is standard input",
            )
            .or_letter('i'),
            control().without("state"),
            named().without("state"),
            flag("json", "Write JSON, one object per line"),
            arguments(
                "ADDRESS",
                "An end of the call, as 10.0.0.1 or 10.0.0.1:5000, and the other end if both are known",
            )
            .required(),
        ],
    )
}
