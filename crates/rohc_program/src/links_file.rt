//! The links file, from the path to the concentrator.

ghost use Rattle.std.specs.Prelude.{IfOk};
ghost use Rattle.rohc_serve.specs.Datagram.{AreSettingsOf};

use rohc_concentrator::{Concentrator, SetupFault};
use rohc_end::End;
use rohc_links::{Links, LinksFault, read_links};
use std::io::Read;
use std::rt::Files;
use std::{fs, io};

/// The longest links file, in octets.
const LONGEST_FILE: u64 = 1_048_576;

/// Reads the text of the file, up to the limit and no further.
fn links_text<R: Files + AllocGlobal>(rt: &R, path: &str) -> Result<String, End> {
    let file = fs::open(rt, path).map_err(|e| unreadable(&e))?;
    let mut octets = Vec::new(rt.alloc());
    let mut limited = file.take(LONGEST_FILE + 1);
    limited
        .read_to_end(&mut octets)
        .map_err(|e| unreadable(&e))?;
    if octets.len() as u64 > LONGEST_FILE {
        return Err(End::LinksFile("Unreadable"));
    }
    String::from_utf8(octets).map_err(|_| End::LinksFile("Unreadable"))
}

/// The end of the program if a file can't be read.
fn unreadable(e: &io::Error) -> End {
    if e.kind() == io::ErrorKind::OutOfMemory {
        End::Memory
    } else {
        End::LinksFile("Unreadable")
    }
}

/// The links in the file, and a concentrator with them and without a record.
pub(crate) fn links_of<R: Files + AllocGlobal>(
    rt: &R,
    path: &str,
) -> Result<(Links, Concentrator), End>
    ensures { IfOk result (λ made. AreSettingsOf made.1 made.0.settings) }
{
    let text = links_text(rt, path)?;
    let links = read_links(rt.alloc(), text.as_str()).map_err(|fault| links_end(&fault))?;
    let concentrator = Concentrator::new(rt.alloc(), links.settings()).map_err(|fault| setup_end(
        &fault,
    ))?;
    Ok((links, concentrator))
}

/// The end of the program for a fault of the links file.
fn links_end(fault: &LinksFault) -> End {
    match fault {
        LinksFault::NoMemory => End::Memory,
        named => End::LinksFile(named.name()),
    }
}

/// The end of the program for a fault of the settings.
fn setup_end(fault: &SetupFault) -> End {
    match fault {
        SetupFault::NoMemory => End::Memory,
        named => End::LinksFile(named.name()),
    }
}
