//! One example, and the ways in which it runs.

use crate::run::Run;
use crate::text::{bad_text, read_text};
use rohc_links::{Links, read_links};
use std::alloc::Global;
use std::fmt;
use std::io::{self, Write};
use std::rt::Files;

/// The links file of version 1.
pub(crate) const VERSION_1: &str = "links-1.toml";

/// The links file of version 2, which has more links.
pub(crate) const VERSION_2: &str = "links-2.toml";

/// A links file.
#[derive(Drop)]
pub(crate) struct LinksFile {
    name: &'static str,
    links: Links,
}

impl LinksFile {
    /// Reads the file of this name.
    pub(crate) fn read<R: Files + AllocGlobal>(rt: &R, name: &'static str) -> io::Result<Self> {
        let text = read_text(rt, name)?;
        let links = read_links(rt.alloc(), text.as_str()).map_err(|_| bad_text())?;
        Ok(LinksFile { name, links })
    }
}

/// How an example runs.
#[derive(Clone, Copy)]
enum Way {
    /// Its script is read in pieces of this size, in octets.
    Pieces(usize),
    /// Each of its packets arrives first cut before each of its octets, and a reset of each link follows.
    AfterCuts,
}

impl fmt::Display for Way {
    fn fmt<W: fmt::Write>(&self, f: &mut fmt::Formatter<W>) -> fmt::Result {
        match self {
            Way::Pieces(size) => write!(f, "in pieces of {size}"),
            Way::AfterCuts => write!(f, "after its cut packets"),
        }
    }
}

/// The longest line of a script, in octets.
const LONGEST_LINE: usize = 131_200;

/// The ways in which each example runs. In the first, a script comes in the largest pieces.
const WAYS: [Way; 5] = [
    Way::Pieces(LONGEST_LINE),
    Way::Pieces(1),
    Way::Pieces(2),
    Way::Pieces(7),
    Way::AfterCuts,
];

/// How the name of an example begins that runs only with the links file of version 2.
const NEEDS_VERSION_2: &str = "version-2";

/// An example.
#[derive(Clone, Copy)]
pub(crate) struct Example<'a> {
    name: &'a str,
    /// Its lines of script and its questions.
    lines: &'a str,
    /// A script that one of its questions may run.
    hostile: &'a str,
}

impl<'a> Example<'a> {
    /// The example whose text this is, from its name on.
    pub(crate) fn of(text: &'a str, hostile: &'a str) -> Self {
        let (name, lines) = text.split_once('\n').unwrap_or((text, ""));
        Example {
            name,
            lines,
            hostile,
        }
    }

    /// Whether it runs with this links file.
    fn has_links(self, file: &LinksFile) -> bool {
        file.name == VERSION_2 || !self.name.starts_with(NEEDS_VERSION_2)
    }

    /// Its name and the answers of its first run, and of each run that differs.
    pub(crate) fn answers(self, alloc: Global, files: &[LinksFile]) -> io::Result<Vec<u8>> {
        let name = self.name;
        let mut text = Vec::new(alloc);
        writeln!(text, "= {name}")?;
        let mut first = None;
        for file in files {
            if self.has_links(file) {
                self.compare(alloc, file, &mut first, &mut text)?;
            }
        }
        Ok(text)
    }

    /// Runs it with one links file in each way. Writes the answers if they are the first, or if they differ from those.
    fn compare(
        self,
        alloc: Global,
        file: &LinksFile,
        first: &mut Option<Vec<u8>>,
        text: &mut Vec<u8>,
    ) -> io::Result<()> {
        for way in WAYS {
            let answers = self.run(alloc, &file.links, way)?;
            match first {
                None => {
                    text.extend_from_slice(&answers)?;
                    *first = Some(answers);
                }
                Some(first) if *first != answers => {
                    writeln!(text, "differs with {} {way}", file.name)?;
                    text.extend_from_slice(&answers)?;
                }
                Some(_) => {}
            }
        }
        Ok(())
    }

    /// Its answers with these links, in one way.
    fn run(self, alloc: Global, links: &Links, way: Way) -> io::Result<Vec<u8>> {
        let mut run = Run::new(alloc, links, self.hostile)?;
        match way {
            Way::Pieces(size) => run.answer_lines(self.lines, size)?,
            Way::AfterCuts => {
                run.cut_lines(self.lines)?;
                run.answer_lines(self.lines, LONGEST_LINE)?;
            }
        }
        Ok(run.into_answers())
    }
}
