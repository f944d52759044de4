//! The loop of a server: a concentrator behind a front.

ghost use Rattle.std.specs.Prelude.{◌≡◌, IfOk, OnErr};
ghost use Rattle.rohc_serve.specs.Datagram.{AreSettingsOf};
ghost use Rattle.rohc_serve.specs.Turns.{service, Serves, TakesOne};

use crate::buffer::PacketBuffer;
use crate::datagram::answer_datagram;
use crate::front::Front;
use crate::sending::send_all;
use crate::tally::ServeTally;
use rohc_concentrator::Concentrator;
use rohc_links::{Links, zeros};
use std::alloc::{AllocError, Global};

/// The longest datagram, in octets: a link's number and a packet.
const LONGEST_DATAGRAM: usize = 65_537;

/// Serves `count` turns, each of which is one receive, and returns what they add up to.
///
/// Two buffers, one for a datagram and one for a packet to be sent, are allocated before the first receive.
/// After that only an accepted first IR asks for memory. The error is lack of memory; then nothing was
/// received and nothing has changed. A failed receive counts as a turn. Neither a failed receive nor a failed
/// send ends the run.
pub fn serve<F: Front>(
    alloc: Global,
    concentrator: &mut Concentrator,
    links: &Links,
    front: &mut F,
    count: u32,
) -> Result<ServeTally, AllocError>
    requires { AreSettingsOf concentrator.old links.now.settings }
    ensures served { IfOk result (λ tally. Serves links.now
        (service concentrator.old concentrator.new (F.acts front.old) (F.acts front.new)) count tally) }
    ensures settings { AreSettingsOf concentrator.new links.now.settings }
    ensures poor { OnErr result ((concentrator.new ≡ concentrator.old) × (front.new ≡ front.old)) }
{
    let mut datagram = zeros(alloc, LONGEST_DATAGRAM)?;
    let mut buffer = PacketBuffer::new(alloc)?;
    Ok(take_turns(
        concentrator,
        links,
        front,
        datagram.as_mut_slice(),
        &mut buffer,
        count,
    ))
}

/// Serves `count` turns with these two buffers, and counts them.
fn take_turns<F: Front>(
    concentrator: &mut Concentrator,
    links: &Links,
    front: &mut F,
    datagram: &mut [u8],
    buffer: &mut PacketBuffer,
    count: u32,
) -> ServeTally
    requires { AreSettingsOf concentrator.old links.now.settings }
    ensures served { Serves links.now (service concentrator.old concentrator.new (F.acts front.old) (F.acts front.new)) count result }
    ensures settings { AreSettingsOf concentrator.new links.now.settings }
{
    let mut tally = ServeTally::default();
    for _ in 0..count {
        take_turn(concentrator, links, front, datagram, buffer, &mut tally);
    }
    tally
}

/// Serves one turn: receives a datagram, answers it, and sends what is to be sent for it.
fn take_turn<F: Front>(
    concentrator: &mut Concentrator,
    links: &Links,
    front: &mut F,
    datagram: &mut [u8],
    buffer: &mut PacketBuffer,
    tally: &mut ServeTally,
)
    requires { AreSettingsOf concentrator.old links.now.settings }
    ensures turn { TakesOne links.now (service concentrator.old concentrator.new (F.acts front.old) (F.acts front.new)) tally.old tally.new }
    ensures settings { AreSettingsOf concentrator.new links.now.settings }
{
    let Some((size, moment)) = front.receive(datagram) else {
        tally.add_failed_receive();
        return;
    };
    let sends = answer_datagram(concentrator, links, moment, &datagram[..size]);
    let failed = send_all(front, buffer, None, &sends);
    tally.add(&sends, failed);
}
