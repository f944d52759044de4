//! What is said of a capture of which no frame carries a packet of a link: what it has in place of that, and which
//! options speak of it.

ghost use Rattle.std.specs.Prelude.{◌≡◌};

use rohc_capture::{Capture, Carrier, FrameFault, Framing, Protocol, carried_in, network_under};
use rohctl_ground::{Ending, Printable, STREAM, input_name, open_file};
use std::alloc::Global;
use std::fmt;
use std::io::Read;
use std::rt::Files;
use std::time::Clock;

/// What a frame is of which no rule speaks.
#[derive(Clone, Copy, PartialEq, Eq)]
enum Find {
    /// A ROHC packet, under a VLAN if there is one.
    Rohc(Option<u16>),
    /// A UDP datagram to this port.
    Udp(u16),
    /// What another EtherType says, under a VLAN if there is one.
    EtherType(u16, Option<u16>),
    /// A frame of a link type that isn't known.
    LinkType(u16),
    /// What is carried ends before the packet begins, at this offset.
    Offset(u16),
    /// Anything else.
    Other,
}

/// How many kinds of frames are told apart.
const KINDS: usize = 8;

/// How many frames of a capture are of each kind, in the order in which they are found.
#[derive(Drop)]
struct Finds {
    kinds: Vec<(Find, u64)>,
    /// The frames of further kinds.
    more: u64,
}

/// The other EtherType of a frame, if it has one.
fn other_type(framing: &Framing, link_type: u16, frame: &[u8]) -> Find {
    match network_under(framing, link_type, frame) {
        Ok(network) => match network.protocol {
            Protocol::EtherType(kind) => Find::EtherType(kind, network.vlan),
            _ => Find::Other,
        },
        Err(_) => Find::Other,
    }
}

/// What a frame of this link type is.
fn find_in(framing: &Framing, link_type: u16, frame: &[u8]) -> Find {
    match carried_in(framing, link_type, frame) {
        Ok(carried) if carried.octets.len() < usize::from(framing.offset) => {
            Find::Offset(framing.offset)
        }
        Ok(carried) => match carried.carrier {
            Carrier::Link => Find::Rohc(carried.vlan),
            Carrier::Udp(port) => Find::Udp(port),
        },
        Err(FrameFault::LinkType) => Find::LinkType(link_type),
        Err(FrameFault::Protocol) => other_type(framing, link_type, frame),
        Err(_) => Find::Other,
    }
}

impl Finds {
    /// Nothing was found yet.
    fn new(alloc: Global) -> Finds {
        Finds {
            kinds: Vec::new(alloc),
            more: 0,
        }
    }

    /// Counts a frame.
    fn add(&mut self, find: Find) {
        for (kind, count) in self.kinds.iter_mut() {
            if *kind == find {
                *count = count.saturating_add(1);
                return;
            }
        }
        if self.kinds.len() >= KINDS || self.kinds.push((find, 1)).is_err() {
            self.more = self.more.saturating_add(1);
        }
    }

    /// Counts the frames of a capture, as far as it can be read.
    fn add_all<S: Read>(&mut self, alloc: Global, framing: &Framing, source: &mut S) {
        let Ok(mut capture) = Capture::new(alloc, source) else {
            return;
        };
        for _ in 0..u64::MAX {
            let Ok(Some(record)) = capture.next() else {
                return;
            };
            self.add(find_in(framing, record.link_type, capture.frame()));
        }
    }
}

/// Writes how many frames there are, in words.
fn write_frames<W: fmt::Write>(f: &mut fmt::Formatter<W>, count: u64) -> fmt::Result {
    if count == 1 {
        f.write_str("1 frame")
    } else {
        write!(f, "{count} frames")
    }
}

impl fmt::Display for Find {
    fn fmt<W: fmt::Write>(&self, f: &mut fmt::Formatter<W>) -> fmt::Result {
        match self {
            Find::Rohc(Some(vlan)) => write!(f, "ROHC under VLAN {vlan}"),
            Find::Rohc(None) => f.write_str("ROHC"),
            Find::Udp(port) => write!(f, "UDP to port {port}"),
            Find::EtherType(kind, Some(vlan)) => {
                write!(f, "EtherType 0x{kind:04x} under VLAN {vlan}")
            }
            Find::EtherType(kind, None) => write!(f, "EtherType 0x{kind:04x}"),
            Find::LinkType(number) => write!(f, "link type {number}"),
            Find::Offset(offset) => write!(f, "fewer octets than --offset {offset}"),
            Find::Other => f.write_str("neither ROHC nor UDP over IPv4"),
        }
    }
}

impl Find {
    /// Writes which option speaks of such a frame, if one does.
    fn write_advice<W: fmt::Write>(&self, f: &mut fmt::Formatter<W>) -> fmt::Result {
        match self {
            Find::Rohc(Some(vlan)) => write!(f, " (pass --vlan {vlan}=LINK, or --link LINK)"),
            Find::Rohc(None) => f.write_str(" (pass --link LINK)"),
            Find::Udp(port) => write!(f, " (pass --port {port}=LINK if it carries ROHC)"),
            Find::EtherType(kind, _) => write!(
                f,
                " (pass --ethertype 0x{kind:04x} --link LINK if it carries ROHC)"
            ),
            Find::LinkType(number) => write!(
                f,
                " (pass --linktype {number} --link LINK if its frames begin with ROHC)"
            ),
            Find::Offset(_) | Find::Other => Ok(()),
        }
    }
}

impl fmt::Display for Finds {
    fn fmt<W: fmt::Write>(&self, f: &mut fmt::Formatter<W>) -> fmt::Result {
        for (place, (find, count)) in self.kinds.iter().enumerate() {
            if place > 0 {
                f.write_str(", ")?;
            }
            write!(f, "{find} in ")?;
            write_frames(f, *count)?;
            find.write_advice(f)?;
        }
        if self.more > 0 {
            f.write_str(", others in ")?;
            write_frames(f, self.more)?;
        }
        Ok(())
    }
}

/// What the frames of a file are, if it can be read.
fn finds_of<R: Files + AllocGlobal>(rt: &R, path: &str, framing: &Framing) -> Option<Finds> {
    if path == STREAM {
        return None;
    }
    let mut file = open_file(rt, path).ok()?;
    let mut finds = Finds::new(rt.alloc());
    finds.add_all(rt.alloc(), framing, &mut file);
    Some(finds)
}

/// Prints what there is in place of a packet of a link.
fn tell<R: Eprint>(rt: &R, path: &str, whose: &str, finds: &Finds) {
    let name = Printable(input_name(path));
    let _ = if finds.kinds.is_empty() {
        eprintln!(rt; "rohctl: {name}: nothing to show: the capture has no frame")
    } else {
        eprintln!(rt; "rohctl: {name}: nothing to show: no frame matches; {whose} {finds}")
    };
}

/// Prints that no frame of a capture carries a packet of a link, and what its frames are: all of a file, and of standard
/// input those in the octets of its front that are kept. Returns the ending.
pub fn no_frame<R: Files + Eprint + Clock + AllocGlobal>(
    rt: &R,
    path: &str,
    front: &[u8],
    framing: &Framing,
) -> Ending<'static>
    ensures { result ≡ Ending.NoFrame }
{
    if let Some(finds) = finds_of(rt, path, framing) {
        tell(rt, path, "the capture has", &finds);
        return Ending::NoFrame;
    }
    let mut octets = front;
    let mut finds = Finds::new(rt.alloc());
    finds.add_all(rt.alloc(), framing, &mut octets);
    tell(rt, path, "its first frames have", &finds);
    Ending::NoFrame
}
