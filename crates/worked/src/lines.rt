//! Lines of a script in short form.

use crate::text::bad_text;
use std::io;

/// A line `BEFORE{TEXT*N}BEHIND` in its parts.
#[derive(Clone, Copy)]
struct Repetition<'a> {
    before: &'a str,
    text: &'a str,
    times: u32,
    behind: &'a str,
}

impl<'a> Repetition<'a> {
    /// The parts of a line that has this form.
    fn of(line: &'a str) -> Option<Self> {
        let (before, rest) = line.split_once('{')?;
        let (inside, behind) = rest.split_once('}')?;
        let (text, times) = inside.split_once('*')?;
        Some(Repetition {
            before,
            text,
            times: times.parse().ok()?,
            behind,
        })
    }
}

/// Appends a line to a script. `{TEXT*N}` in it stands for TEXT, N times. If it ends in `$`, it ends without a newline.
pub(crate) fn push_line(script: &mut String, line: &str) -> io::Result<()> {
    let (line, end) = match line.strip_suffix('$') {
        Some(line) => (line, ""),
        None => (line, "\n"),
    };
    match Repetition::of(line) {
        Some(repetition) => push_repetition(script, repetition)?,
        None => script.push_str(line)?,
    }
    script.push_str(end)?;
    Ok(())
}

/// Appends a line whose text is repeated.
fn push_repetition(script: &mut String, repetition: Repetition<'_>) -> io::Result<()> {
    script.push_str(repetition.before)?;
    for _ in 0..repetition.times {
        script.push_str(repetition.text)?;
    }
    script.push_str(repetition.behind)?;
    Ok(())
}

/// The link, the arrival time and the digits of an arrival, or `None` for any other line.
pub(crate) fn arrival_of(line: &str) -> Option<(u16, u64, &str)> {
    let (link, rest) = line.strip_prefix("arrive ")?.split_once(' ')?;
    let (moment, digits) = rest.split_once(' ')?;
    Some((link.parse().ok()?, moment.parse().ok()?, digits))
}
