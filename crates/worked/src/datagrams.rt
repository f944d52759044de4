//! Questions to the server.

ghost use Rattle.std.specs.Prelude.{IfOk};
ghost use Rattle.rohc_serve.specs.Datagram.{AreSettingsOf};

use crate::front::{Memory, write_datagram};
use crate::text::bad_text;
use rohc_concentrator::Concentrator;
use rohc_context::Delivered;
use rohc_links::Links;
use rohc_serve::{Sends, answer_datagram};
use std::alloc::{AllocError, Global};
use std::io::{self, Write};

/// The concentrator of these links, without contexts.
fn concentrator_of(alloc: Global, links: &Links) -> io::Result<Concentrator>
    ensures { IfOk result (λ made. AreSettingsOf made links.now.settings) }
{
    Concentrator::new(alloc, links.settings()).map_err(|_| bad_text())
}

/// Writes what is to be sent for one datagram.
pub(crate) fn answer(
    alloc: Global,
    links: &Links,
    digits: &str,
    answers: &mut Vec<u8>,
) -> io::Result<()> {
    let datagram = hex::decode(alloc, digits).map_err(|_| bad_text())?;
    let mut concentrator = concentrator_of(alloc, links)?;
    let sends = answer_datagram(&mut concentrator, links, 0, &datagram);
    write_sends(alloc, sends, answers)
}

/// Writes each datagram that is to be sent, and whether the arrival was refused.
fn write_sends(alloc: Global, sends: Sends<'_>, answers: &mut Vec<u8>) -> io::Result<()> {
    let Sends {
        ports,
        relayed,
        packet,
        feedback,
        refused,
    } = sends;
    if let Some(ports) = ports {
        for octets in relayed {
            write_datagram(alloc, ports.relay, octets, answers)?;
        }
        if let Some(packet) = packet {
            write_datagram(alloc, ports.deliver, &octets_of(alloc, &packet)?, answers)?;
        }
        if let Some(element) = feedback {
            write_datagram(alloc, ports.feedback, element.as_slice(), answers)?;
        }
    }
    if refused {
        writeln!(answers, "refused")?;
    }
    Ok(())
}

/// The octets of a packet.
fn octets_of(alloc: Global, packet: &Delivered<'_>) -> Result<Vec<u8>, AllocError> {
    let mut octets = Vec::from_slice(alloc, packet.head.as_slice())?;
    octets.extend_from_slice(packet.payload)?;
    Ok(octets)
}

/// Serves a turn for each datagram. The first word is the port to which sends fail. Writes what was sent, and the tally.
pub(crate) fn serve(
    alloc: Global,
    links: &Links,
    words: &str,
    answers: &mut Vec<u8>,
) -> io::Result<()> {
    let (failing, datagrams) = words.split_once(' ').ok_or(bad_text())?;
    let failing = failing.parse().map_err(|_| bad_text())?;
    let count = u32::try_from(datagrams.split(' ').count()).map_err(|_| bad_text())?;
    let mut concentrator = concentrator_of(alloc, links)?;
    let mut front = Memory::new(alloc, datagrams, failing);
    let tally = rohc_serve::serve(alloc, &mut concentrator, links, &mut front, count)?;
    answers.extend_from_slice(front.sent())?;
    writeln!(answers, "{tally}")
}
