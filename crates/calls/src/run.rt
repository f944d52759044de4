//! Calls that run one after the other.

use crate::call::Call;
use crate::outcome::Outcome;
use crate::setting::first_link;
use rohc_concentrator::Concentrator;
use rohc_context::Context;
use rohc_replay::replay;
use std::alloc::Global;
use std::io::{self, Error, ErrorKind, Write};

/// How a line starts that begins an example.
const EXAMPLE: &[u8] = b"= ";

/// A concentrator, and lines that aren't run yet.
#[derive(Drop)]
pub(crate) struct Run {
    alloc: Global,
    concentrator: Concentrator,
    /// Lines for `replay`: arrivals, and lines that are no call.
    script: Vec<u8>,
}

impl Run {
    /// A run of which no line has been read.
    pub(crate) fn new(alloc: Global) -> io::Result<Self> {
        Ok(Run {
            alloc,
            concentrator: first_concentrator(alloc)?,
            script: Vec::new(alloc),
        })
    }

    /// Runs each line of a text, and writes its answers.
    pub(crate) fn answer_lines<W: Write>(&mut self, text: &[u8], writer: &mut W) -> io::Result<()> {
        for line in text.split_inclusive(|octet| *octet == b'\n') {
            self.answer_line(line, writer)?;
        }
        self.replay(writer)
    }

    /// Runs a line, which may end in a newline, and writes its answers. The lines that `replay` answers are
    /// kept until another one comes.
    fn answer_line<W: Write>(&mut self, line: &[u8], writer: &mut W) -> io::Result<()> {
        let words = line.strip_suffix(b"\n").unwrap_or(line);
        if words.starts_with(EXAMPLE) {
            self.replay(writer)?;
            self.concentrator = first_concentrator(self.alloc)?;
            writer.write_all(words)?;
            writer.write_all(b"\n")
        } else if let Some(call) = Call::of(words) {
            self.replay(writer)?;
            let (link, name) = (call.link(), call.name());
            let outcome = self.outcome_of(call);
            writeln!(writer, "{link} {name} {outcome}")
        } else {
            self.script.extend_from_slice(line)?;
            Ok(())
        }
    }

    /// Runs the lines that are kept, and writes their answers.
    fn replay<W: Write>(&mut self, writer: &mut W) -> io::Result<()> {
        if self.script.is_empty() {
            return Ok(());
        }
        let mut lines = self.script.as_slice();
        let told = replay(self.alloc, &mut self.concentrator, &mut lines, writer);
        self.script.clear();
        match told {
            Ok(_) => Ok(()),
            Err(_) => Err(Error::from(ErrorKind::Other)),
        }
    }

    /// Makes a call.
    fn outcome_of(&mut self, call: Call) -> Outcome {
        match call {
            Call::Reset { link } => self.concentrator.reset(link).into(),
            Call::Forget { link, cid } => self.concentrator.forget(link, cid).into(),
            Call::Expire { link, moment } => self.concentrator.forget_expired(link, moment).into(),
            Call::Add(setting) => self.concentrator.add_link(self.alloc, setting).into(),
            Call::Change(setting) => self.concentrator.change_link(setting).into(),
            Call::Remove { link } => self.concentrator.remove_link(link).into(),
            Call::Put {
                link,
                cid,
                from_link,
                from_cid,
            } => match copy_of(&self.concentrator, from_link, from_cid) {
                Some(context) => self.concentrator.put(link, cid, context).into(),
                None => Outcome::Fault("no such context"),
            },
        }
    }
}

/// The concentrator before the first call.
fn first_concentrator(alloc: Global) -> io::Result<Concentrator> {
    Concentrator::new(alloc, &[first_link()]).map_err(|_| Error::from(ErrorKind::OutOfMemory))
}

/// The context of a CID, if it has one, as it comes back from its octets.
fn copy_of(concentrator: &Concentrator, link: u16, cid: u16) -> Option<Context> {
    let records = concentrator.tables().get(&link)?;
    let saved = records.contexts.get(&cid)?.save();
    Context::restore(saved.as_slice()).ok()
}
