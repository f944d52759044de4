//! A law of what is written, as the contract of a function that does nothing.

ghost use Rattle.rohc_report.specs.Escaped.{StaysText};

/// No text of the input can put a tag, an entity of its own, the end of an attribute or a control character into a page.
pub fn stays_text()
    ensures { StaysText }
{}
