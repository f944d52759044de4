//! What is asked of `report`.

use crate::capture_words::rules_of;
use crate::narrow_words::{times_of, which_call};
use crate::replaying::state_in;
use crate::words_in::{input_of, keep_streams_apart, value_of};
use clap::ArgMatches;
use rohctl_ground::Ending;
use rohctl_report::Asked;

/// What is asked of `report`.
pub(crate) fn report_of<'a>(
    options: &ArgMatches<'a>,
    is_terminal: bool,
) -> Result<Asked<'a>, Ending<'a>> {
    let links = value_of(options, "links")?;
    let input = input_of(options, "INPUT", is_terminal)?;
    keep_streams_apart(links, "INPUT", input)?;
    Ok(Asked {
        links,
        state: state_in(options)?,
        input,
        output: value_of(options, "output")?,
        rules: rules_of(options),
        payload: options.get_str("payload"),
        which: which_call(options)?,
        times: times_of(options)?,
    })
}
