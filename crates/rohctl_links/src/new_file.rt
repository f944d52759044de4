//! A links file to start from.

use crate::settings::write_entry;
use arrayvec::ArrayVec;
use rohc_concentrator::LinkSetting;
use rohc_context::Settings;
use rohc_frame::CidKind;
use rohc_links::Ports;
use rohctl_ground::{Ending, unprinted, usual_settings};
use std::io;
use std::io::{BufWriter, Write};

/// The front of a links file: its first link, with the limits of each key. It has the usual settings.
const NEW_FILE: &str = "\
# The links of rohcd. 1 to 256 tables [[link]]; each has every key but range.
version = 2

[[link]]
number = 1             # 0 to 65535, each once
cid = \"small\"          # \"small\" or \"large\", as the channel has it
max_cid = 15           # 0 to 15 for small CIDs, 0 to 16383 for large ones
mode = \"O\"             # \"O\" sends feedback, \"U\" sends none
k1 = 2                 # 1 to n1: failures that lead from Full to Static Context
n1 = 3                 # 1 to 64: the outcomes among which they are counted
k2 = 2                 # 1 to n2: failures that lead from Static to No Context
n2 = 3                 # 1 to 64: the outcomes among which they are counted
packet_ms = 20         # 1 to 60000: the time between two packets of a call
static_nack_ms = 1000  # 0 to 3600000: the minimum time between two STATIC-NACKs
deliver_port = 6001    # 1 to 65535: where rebuilt packets go
feedback_port = 6002   # 1 to 65535: where feedback for the compressor goes
relay_port = 6003      # 1 to 65535: where feedback for this side's compressor goes
idle_ms = 600000       # 0 to 86400000: after this pause a context expires; 0 is never
# range = [{ first = 4, last = 7, mode = \"U\" }]  # at most 8: CIDs with a mode of their own
";

/// The first port of the first link.
const FIRST_PORT: u16 = 6001;

/// The ports of the link behind so many others.
fn ports_after(others: u16) -> Ports {
    let deliver = others.saturating_mul(3).saturating_add(FIRST_PORT);
    Ports {
        deliver,
        feedback: deliver.saturating_add(1),
        relay: deliver.saturating_add(2),
    }
}

/// Writes the entry of the link with this number and these settings, behind so many others.
fn write_link<W: Write>(out: &mut W, others: u16, link: u16, settings: Settings) -> io::Result<()> {
    let setting = LinkSetting {
        link,
        settings,
        ranges: ArrayVec::new(),
    };
    write_entry(out, &setting, &ports_after(others))
}

/// Writes a links file of so many links, whose numbers and ports follow one another.
fn write_new<W: Write>(out: &mut W, count: u16) -> io::Result<()> {
    out.write_all(NEW_FILE.as_bytes())?;
    for others in 1..count {
        let link = others.saturating_add(1);
        write_link(out, others, link, usual_settings(CidKind::Small))?;
    }
    out.flush()
}

/// Writes a links file of these links, whose ports follow one another.
pub fn write_found<W: Write>(out: &mut W, links: &[(u16, Settings)]) -> io::Result<()> {
    out.write_all(
        b"# The links that 'rohctl survey' found. 'rohctl links --new' explains each key.\nversion = 2\n",
    )?;
    for (others, (link, settings)) in (0u16..).zip(links) {
        write_link(out, others, *link, *settings)?;
    }
    out.flush()
}

/// Writes a links file of so many links to start from.
pub fn run_new<R: Print + AllocGlobal>(
    rt: &R,
    count: u16,
) -> Result<Ending<'static>, Ending<'static>> {
    let Ok(mut out) = BufWriter::new(rt.alloc(), io::writer(rt)) else {
        return Err(Ending::Memory);
    };
    match write_new(&mut out, count) {
        Ok(()) => Ok(Ending::Good),
        Err(error) => Err(unprinted(&error)),
    }
}
