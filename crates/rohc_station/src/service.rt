//! The way of datagrams through a gateway: each is received, and then answered or held back.

ghost use Rattle.std.specs.Prelude.{◌≡◌, ◌≤◌, [], None, length, vec_len};
ghost use Rattle.rohc_station.specs.Told.{Told};
ghost use Rattle.rohc_station.specs.Recorded.{arrival_in};
ghost use Rattle.rohc_station.specs.Answering.{AnswersRead};
ghost use Rattle.rohc_station.specs.Service.{is_timed_at, Receives};

use crate::duty::Duty;
use crate::held::{Arrived, Held};
use crate::moves::Moves;
use crate::observing::{Observer, Wish};
use crate::record::arrival_in;
use crate::room::Room;
use crate::station::Station;
use rohc_serve::{Front, PacketBuffer};
use std::alloc::{AllocError, Global};

/// The most datagrams that are taken from a port at a time.
const BATCH: u32 = 256;

/// Where datagrams come in.
#[derive(Clone, Copy)]
pub enum Port {
    /// At the port for datagrams of all links.
    Plain,
    /// At the port for timed datagrams of all links.
    Timed,
    /// At the port of this link, without its number.
    Link(u16),
}

impl Port {
    /// Whether datagrams have their moment in them.
    fn is_timed(self) -> bool
        ensures { result ≡ is_timed_at self }
    {
        match self {
            Port::Timed => true,
            Port::Plain | Port::Link(_) => false,
        }
    }
}

/// A front that knows whether datagrams wait.
pub trait Queue: Front {
    /// Whether the last receive failed since no datagram waits.
    fn is_empty(&self) -> bool;
}

/// A station behind its ports, with the links that are moved.
#[derive(Drop)]
pub struct Service {
    /// The station.
    pub station: Station,
    /// The links that are moved.
    pub moves: Moves,
    /// A buffer for a datagram.
    room: Room,
    /// A buffer for what is sent.
    packet: PacketBuffer,
}

/// Receives a datagram into a buffer. One at the port of a link goes behind the number of the link. Returns its size and the
/// moment of its arrival.
fn receive_at<F: Front>(front: &mut F, buffer: &mut [u8], port: Port) -> Option<(usize, u64)>
    requires { 2 ≤ length buffer.old }
    ensures received { Receives port (F.acts front.old) (F.acts front.new) result buffer.new }
    ensures room { length buffer.new ≡ length buffer.old }
{
    let Port::Link(link) = port else {
        return front.receive(buffer);
    };
    let (number, room) = buffer.split_at_mut(2);
    number.copy_from_slice(&link.to_be_bytes());
    let (size, moment) = front.receive(room)?;
    Some((size + 2, moment))
}

/// Answers a datagram, which an observer sees.
fn answer_seen<F: Front, O: Observer>(
    station: &mut Station,
    packet: &mut PacketBuffer,
    front: &mut F,
    observer: &mut O,
    duty: Duty,
    arrived: Arrived<'_>,
)
    ensures { (told : Told) × AnswersRead duty arrived.entry.moment station.old station.new
        (arrival_in arrived.entry.is_timed arrived.entry.moment arrived.entry.octets.now) told (F.acts front.old) (F.acts front.new) }
{
    let Arrived {
        moment,
        is_timed,
        octets,
    } = arrived;
    let read = arrival_in(is_timed, moment, octets);
    let seen = match observer.wish() {
        Wish::Nothing => None,
        wish => Some(station.seen(wish, is_timed, read)),
    };
    let taken = station.answer(front, packet, duty, moment, read);
    if let Some(seen) = &seen {
        observer.see(seen, &taken);
    }
}

impl Service {
    ghost use Rattle.std.specs.Prelude.{◌≡◌, ℕ, List, Option, IfOk, take, vec_len};
    ghost use Rattle.rohc_station.specs.Held.{held_in, came};
    ghost use Rattle.rohc_station.specs.Service.{view, is_timed_at, Handles, TurnsOn, Serves, AnswersEach};

    /// A service of this station. No link is moved. The error is lack of memory.
    pub fn new(alloc: Global, station: Station) -> Result<Service, AllocError>
        ensures station { IfOk result (λ service. service.station ≡ station) }
        ensures held { IfOk result (λ service. service.moves.held ≡ None) }
        ensures away { IfOk result (λ service. service.moves.away.items ≡ []) }
    {
        let room = Room::new(alloc)?;
        let packet = PacketBuffer::new(alloc)?;
        Ok(Service {
            station,
            moves: Moves::new(alloc),
            room,
            packet,
        })
    }

    /// Handles the datagram of this size that was received: it is held back, or answered.
    fn handle<F: Front, O: Observer>(
        &mut self,
        front: &mut F,
        observer: &mut O,
        duty: Duty,
        is_timed: bool,
        received: (usize, u64),
    )
        requires { received.0 ≤ vec_len self.old.room.octets }
        ensures { Handles duty (view self.old (F.acts front.old)) (view self.new (F.acts front.new))
            (came received.1 is_timed (take received.0 self.old.room.octets.items)) }
    {
        let (size, moment) = received;
        let room = &self.room;
        let arrived = Arrived {
            moment,
            is_timed,
            octets: &room.octets[..size],
        };
        if self.moves.hold_back(arrived) {
            return;
        }
        answer_seen(
            &mut self.station,
            &mut self.packet,
            front,
            observer,
            duty,
            arrived,
        );
    }

    /// Receives a datagram and handles it. Returns whether one was received.
    fn take_next<F: Front, O: Observer>(
        &mut self,
        front: &mut F,
        observer: &mut O,
        duty: Duty,
        port: Port,
    ) -> bool
        ensures { (given : Option (ℕ × List ℕ)) × TurnsOn port duty (view self.old (F.acts front.old)) given
            (view self.new (F.acts front.new)) }
    {
        match receive_at(front, self.room.octets.as_mut_slice(), port) {
            Some(received) => {
                self.handle(front, observer, duty, port.is_timed(), received);
                true
            }
            None => false,
        }
    }

    /// Serves what waits at a port, until nothing waits there, but at most 256 receives. Returns whether more may wait.
    ///
    /// Each datagram is handled before the next one is received: it waits if its link is held, is dropped if its link was
    /// exported, and is answered otherwise (`Station::answer`). The observer sees those that are answered.
    pub fn serve<Q: Queue, O: Observer>(
        &mut self,
        queue: &mut Q,
        observer: &mut O,
        duty: Duty,
        port: Port,
    ) -> bool
        ensures { Serves port duty 256 (view self.old (Q.acts queue.old)) (view self.new (Q.acts queue.new)) }
    {
        for _ in 0..BATCH {
            if !self.take_next(queue, observer, duty, port) && queue.is_empty() {
                return false;
            }
        }
        true
    }

    /// Answers the datagrams of a link that waited, each once and in their order, as of the moment at which it came.
    pub fn answer_held<F: Front>(&mut self, front: &mut F, duty: Duty, held: &Held)
        ensures { AnswersEach duty (view self.old (F.acts front.old)) (held_in held.now) (view self.new (F.acts front.new)) }
    {
        for mark in held.marks.as_slice() {
            let octets = &held.octets[mark.start..mark.end];
            let read = arrival_in(mark.is_timed, mark.moment, octets);
            self.station
                .answer(front, &mut self.packet, duty, mark.moment, read);
        }
    }
}
