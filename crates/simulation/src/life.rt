//! The life of a gateway in a simulated outside.

use crate::loopback::{Loopback, Wanted};
use crate::machines::{DELIVER_PORT, Machines, Saved, place_of, station_from};
use crate::sender::{CALLS, Call, Octets, datagram, has_ir, hostile, octets_of};
use crate::shadow::Shadow;
use crate::wrong::Wrong;
use rohc_loop::{Before, Moments, first_moment, is_stale, read_state, replace_file};
use rohc_running::{Begin, Progress, RunningSave};
use rohc_saved::saved_moment;
use rohc_serve::{PacketBuffer, named_link};
use rohc_simulated::{Chances, Random, Simulated, SimulatedDisk};
use rohc_station::{Duty, Observer, Port, Seen, Service, Taken, Wish, arrival_in};
use rohc_world::{Clocks, Disk};
use std::alloc::Global;
use std::mem;

/// The save of a stop, and the newest one of a run.
const STATE: &str = "state";

const LATEST: &str = "latest";

/// From which age on what was saved is stale, in milliseconds.
const STALE_MS: u32 = 1000;

/// How often a gateway wakes in its life.
const WAKES: u32 = 64;

/// One call in 64 to the outside fails, half of the writes accept a part, and one reading of the system's clock in 32 jumps.
const CHANCES: Chances = Chances {
    failure: 64,
    part: 2,
    jump: 32,
};

/// How many packets of a call may be lost in a row: the four bits of a UO-0 tell more apart.
const MOST_LOST: u64 = 12;

/// The link that is held at times, and the one that is exported at times.
const HELD: u16 = 2;

const AWAY: u16 = 1;

const DUTY: Duty = Duty {
    is_draining: false,
    is_numbered: true,
};

/// Nobody who sees datagrams.
#[derive(Drop)]
struct Nobody {}

impl Observer for Nobody {
    fn wish(&self) -> Wish {
        Wish::Nothing
    }

    fn see(&mut self, _seen: &Seen<'_>, _taken: &Taken<'_>) {}
}

/// What was done in lives.
#[derive(Clone, Copy, Default)]
pub(crate) struct Tally {
    /// Datagrams that were answered.
    pub(crate) datagrams: u64,
    pub(crate) delivered: u64,
    pub(crate) saves: u64,
    pub(crate) ends: u64,
}

/// What a receiver of a call has missed.
#[derive(Clone, Copy)]
struct Missed {
    /// How many packets were sent since the last one that was delivered.
    sent: u64,
    /// Whether each delivered packet must be one that was sent: since the last IR no more were lost in a row than a compressor
    /// allows for, and no state was lost.
    is_sure: bool,
}

/// Nothing is sure of a call before its first IR.
const UNSURE: Missed = Missed {
    sent: 0,
    is_sure: false,
};

/// A gateway and its outside, and the machines that it is compared with.
#[derive(Drop)]
pub(crate) struct Life {
    alloc: Global,
    random: Random,
    world: Simulated,
    moments: Moments,
    moment: u64,
    service: Service,
    loopback: Loopback,
    machines: Machines,
    buffer: PacketBuffer,
    calls: [Call; CALLS],
    missed: [Missed; CALLS],
    /// The saves of the run, and what must be in their files.
    running: RunningSave,
    shadow: Shadow,
    /// What either file may be.
    saved: Vec<Saved>,
    /// The moments of the last save that was done, and of the last one that the device has.
    done: Option<u64>,
    synced: Option<u64>,
    /// The datagrams of the link that is held, with the moments at which they came.
    held: Vec<(u64, Octets)>,
    /// How many datagrams were answered since the last start, and how many of the exported link dropped.
    answered: u64,
    dropped: u64,
    pub(crate) tally: Tally,
}

/// A service that goes on from what was saved, or begins. Its contexts fall, if what was saved is stale.
fn service_from(alloc: Global, saved: Option<&Saved>, falls: bool) -> Result<Service, Wrong> {
    let state = match saved {
        Some(saved) => Some(saved.state.as_slice()),
        None => None,
    };
    Service::new(alloc, station_from(alloc, state, falls)?).map_err(|_| Wrong::Memory)
}

/// The link of a datagram.
fn link_of(datagram: &Octets) -> u16 {
    match named_link(datagram.as_slice()) {
        Some((link, _)) => link,
        None => 0,
    }
}

/// A save that was found.
#[derive(Drop)]
struct Found {
    path: &'static str,
    moment: u64,
    octets: Vec<u8>,
}

/// The save at a path, if it is there and tells its moment.
fn found_at(world: &mut Simulated, alloc: Global, path: &'static str) -> Option<Found> {
    let octets = read_state(world, alloc, path).ok()??;
    let moment = saved_moment(octets.as_slice()).ok()?;
    Some(Found {
        path,
        moment,
        octets,
    })
}

/// The first moment of a run that goes on from this save, or begins.
fn first_of(world: &mut Simulated, found: Option<&Found>) -> Result<u64, Wrong> {
    let before = match found {
        Some(found) => Some(Before {
            moment: found.moment,
            modified: world.modified(found.path).ok(),
        }),
        None => None,
    };
    first_moment(world.date().ok(), before).ok_or(Wrong::State)
}

/// The moments of a run from this one on.
fn moments_from(world: &mut Simulated, first: u64) -> Result<Moments, Wrong> {
    Moments::begin(world, first).map_err(|_| Wrong::State)
}

/// An outside over a disk. No call fails yet.
fn world_over(disk: SimulatedDisk, seed: u64) -> Simulated {
    let chances = Chances {
        failure: 0,
        ..CHANCES
    };
    Simulated::new(disk, Random::new(seed), chances, u64::MAX)
}

/// Whether a packet that was delivered is one that its sender sent.
fn was_sent(calls: &[Call], packet: &Octets) -> bool {
    calls.iter().any(|call| call.sent(packet))
}

impl Life {
    /// A life that begins, from a seed.
    pub(crate) fn begin(alloc: Global, seed: u64) -> Result<Life, Wrong> {
        let mut random = Random::new(seed);
        let mut world = world_over(SimulatedDisk::new(alloc), random.next());
        let first = first_of(&mut world, None)?;
        let moments = moments_from(&mut world, first)?;
        world.chances = CHANCES;
        Ok(Life {
            alloc,
            world,
            moments,
            moment: 0,
            service: service_from(alloc, None, false)?,
            loopback: Loopback::new(alloc, random.next()),
            machines: Machines::from(alloc, None, false)?,
            buffer: PacketBuffer::new(alloc).map_err(|_| Wrong::Memory)?,
            calls: [Call::new(1, 0), Call::new(1, 3), Call::new(2, 0)],
            missed: [UNSURE; CALLS],
            running: RunningSave::new(alloc, LATEST).ok_or(Wrong::Memory)?,
            shadow: Shadow::new(alloc)?,
            saved: Vec::new(alloc),
            done: None,
            synced: None,
            held: Vec::new(alloc),
            answered: 0,
            dropped: 0,
            tally: Tally::default(),
            random,
        })
    }

    /// Lives, and returns what was done.
    pub(crate) fn live(&mut self) -> Result<(), Wrong> {
        for _ in 0..WAKES {
            self.wake()?;
        }
        self.check_counts()
    }

    /// One wake: what came is answered. Then the gateway may go on with a save, begin one, stop, or be killed.
    fn wake(&mut self) -> Result<(), Wrong> {
        self.moment = self.moments.now(&mut self.world);
        self.send_calls()?;
        self.send_others()?;
        self.serve()?;
        self.move_links()?;
        if self.running.is_busy() {
            self.go_on_saving()
        } else if self.random.happens(4) {
            self.begin_save()
        } else if self.random.happens(16) {
            self.stop()
        } else if self.random.happens(24) {
            self.restart()
        } else {
            Ok(())
        }
    }

    /// Each sender sends its next packet. One in eight is lost on the way.
    fn send_calls(&mut self) -> Result<(), Wrong> {
        for missed in self.missed.iter_mut() {
            missed.sent = missed.sent.saturating_add(1);
        }
        for call in self.calls.iter_mut() {
            call.go_on();
            if !self.random.happens(8) {
                let sent = datagram(call.link, call.packet().as_slice());
                self.loopback.put(sent).map_err(|_| Wrong::Memory)?;
            }
        }
        Ok(())
    }

    /// Others send up to seven hostile packets, also for a link that isn't there.
    fn send_others(&mut self) -> Result<(), Wrong> {
        for _ in 0..self.random.below(8) {
            let link = self.random.below(3) as u16 + 1;
            let sent = datagram(link, hostile(&mut self.random).as_slice());
            self.loopback.put(sent).map_err(|_| Wrong::Memory)?;
        }
        Ok(())
    }

    /// What the machine of a datagram sends for it is wanted.
    fn want(&mut self, wanted: &mut Wanted, moment: u64, datagram: &Octets) -> Result<(), Wrong> {
        self.answered = self.answered.saturating_add(1);
        self.tally.datagrams = self.tally.datagrams.saturating_add(1);
        let read = arrival_in(false, moment, datagram.as_slice());
        let place = place_of(&self.calls, datagram);
        wanted.delivered = None;
        if let Some(machine) = self.machines.at(place) {
            machine.answer(wanted, &mut self.buffer, DUTY, moment, read);
        }
        match &wanted.delivered {
            Some(packet)
                if self.note_delivered(place, datagram) && !was_sent(&self.calls, packet) => {
                Err(Wrong::Delivered)
            }
            _ => Ok(()),
        }
    }

    /// Notes that a packet of the call at a place was delivered. Returns whether it must be one that was sent.
    fn note_delivered(&mut self, place: usize, datagram: &Octets) -> bool {
        self.tally.delivered = self.tally.delivered.saturating_add(1);
        match self.missed.get_mut(place) {
            Some(missed) => {
                let is_near = missed.is_sure && missed.sent <= MOST_LOST;
                missed.is_sure = has_ir(datagram) || is_near;
                missed.sent = 0;
                missed.is_sure
            }
            None => false,
        }
    }

    /// Takes a datagram that was received: it waits, is dropped, or is answered.
    fn take(&mut self, wanted: &mut Wanted, datagram: &Octets) -> Result<(), Wrong> {
        let link = link_of(datagram);
        let moment = self.moment;
        let moves = &self.service.moves;
        if moves.is_held(link) {
            return self
                .held
                .push((moment, octets_of(datagram.as_slice())))
                .map_err(|_| Wrong::Memory);
        }
        if moves.is_away(link) {
            self.dropped = self.dropped.saturating_add(1);
            return Ok(());
        }
        self.want(wanted, moment, datagram)
    }

    /// Serves what waits, and compares what was sent with what the machines alone send.
    fn serve(&mut self) -> Result<(), Wrong> {
        self.loopback.moment = self.moment;
        let port = Port::Plain;
        if self
            .service
            .serve(&mut self.loopback, &mut Nobody {}, DUTY, port)
        {
            return Err(Wrong::Counts);
        }
        let mut wanted = Wanted::new(self.alloc, DELIVER_PORT);
        let received = self.loopback.taken(self.alloc);
        for datagram in received.as_slice() {
            self.take(&mut wanted, datagram)?;
        }
        self.compare(&wanted)
    }

    /// Compares what was sent with what is wanted.
    fn compare(&mut self, wanted: &Wanted) -> Result<(), Wrong> {
        if self.loopback.sent_just(wanted) {
            Ok(())
        } else {
            Err(Wrong::Answers)
        }
    }

    /// Holds a link or lets it go, and exports the other one or takes it back, now and then.
    fn move_links(&mut self) -> Result<(), Wrong> {
        let (is_held, is_away) = (
            self.service.moves.is_held(HELD),
            self.service.moves.is_away(AWAY),
        );
        if !is_held && self.random.happens(16) {
            let held = self.service.moves.hold(self.alloc, HELD);
            held.map_err(|_| Wrong::Memory)?;
        } else if is_held && self.random.happens(4) {
            self.let_go()?;
        }
        if !is_away && self.random.happens(24) {
            let exported = self.service.moves.export(AWAY);
            exported.map_err(|_| Wrong::Memory)?;
        } else if is_away && self.random.happens(4) {
            self.service.moves.take_back(AWAY);
        }
        Ok(())
    }

    /// Answers the datagrams that were held, each at the moment at which it came.
    fn let_go(&mut self) -> Result<(), Wrong> {
        let Some(held) = self.service.moves.release() else {
            return Ok(());
        };
        self.service.answer_held(&mut self.loopback, DUTY, &held);
        let mut wanted = Wanted::new(self.alloc, DELIVER_PORT);
        let waited = mem::replace(&mut self.held, Vec::new(self.alloc));
        for (moment, datagram) in waited.as_slice() {
            self.want(&mut wanted, *moment, datagram)?;
        }
        self.compare(&wanted)
    }

    /// When a save begins now.
    fn begin_now(&mut self) -> Begin {
        Begin {
            moment: self.moment,
            date: self.world.date().unwrap_or(0),
        }
    }

    /// Begins a save that goes on while the gateway runs.
    fn begin_save(&mut self) -> Result<(), Wrong> {
        let begin = self.begin_now();
        let own = &self.service.station;
        let begun = self
            .running
            .begin(&mut self.world, self.alloc, own.concentrator(), begin);
        if begun.is_ok() {
            self.shadow.begin(&self.machines, own, begin.moment)?;
        }
        Ok(())
    }

    /// Goes on with the save under way by some pieces. In every eighth wake the gateway is killed at one of its calls, if that
    /// call comes.
    fn go_on_saving(&mut self) -> Result<(), Wrong> {
        let is_killed = self.random.happens(8);
        if is_killed {
            let calls = self.random.below(4);
            self.kill_after(calls);
        }
        for _ in 0..self.random.below(4) {
            if self.running.is_busy() {
                self.save_piece()?;
            }
        }
        if is_killed { self.restart() } else { Ok(()) }
    }

    /// Goes on with the save under way by one piece.
    fn save_piece(&mut self) -> Result<(), Wrong> {
        let calls = self.world.calls;
        let own = &self.service.station;
        let step = self
            .running
            .go_on(&mut self.world, self.alloc, own.concentrator());
        if let Ok(Progress::Goes) = step {
            return if self.world.calls == calls {
                self.shadow.gather(&self.machines, own)
            } else {
                Ok(())
            };
        }
        let Some(saved) = self.shadow.saved() else {
            return Ok(());
        };
        if step.is_ok() {
            self.done = Some(saved.moment);
            self.tally.saves = self.tally.saves.saturating_add(1);
        }
        self.saved.push(saved).map_err(|_| Wrong::Memory)
    }

    /// The gateway is killed after so many more calls, if they come.
    fn kill_after(&mut self, calls: u64) {
        self.world.end = self.world.calls.saturating_add(calls);
    }

    /// Saves as a stop does, and starts again. In every second stop the gateway is killed at one of its calls.
    fn stop(&mut self) -> Result<(), Wrong> {
        let saved = self
            .machines
            .saved_with(self.alloc, &self.service.station, self.moment)?;
        let date = self.begin_now().date;
        if self.random.happens(2) {
            let calls = self.random.below(16);
            self.kill_after(calls);
        }
        let state = saved.state.as_slice();
        if replace_file(&mut self.world, self.alloc, STATE, state, date).is_ok() {
            self.done = Some(saved.moment);
            self.synced = self.done;
            self.tally.saves = self.tally.saves.saturating_add(1);
        }
        self.saved.push(saved).map_err(|_| Wrong::Memory)?;
        self.restart()
    }

    /// Kills the gateway, with its host or alone, and starts it again from its newest save that is whole.
    fn restart(&mut self) -> Result<(), Wrong> {
        self.check_counts()?;
        let least = if self.random.happens(2) {
            let failed = self.world.disk.after_power_failure(&mut self.random);
            self.world = world_over(failed.map_err(|_| Wrong::Memory)?, self.random.next());
            self.synced
        } else {
            let disk = mem::replace(&mut self.world.disk, SimulatedDisk::new(self.alloc));
            self.world = world_over(disk, self.random.next());
            self.done
        };
        self.running = RunningSave::new(self.alloc, LATEST).ok_or(Wrong::Memory)?;
        let found = self.newest()?;
        let moment = match &found {
            Some(found) => Some(found.moment),
            None => None,
        };
        if moment < least {
            return Err(Wrong::State);
        }
        self.done = moment;
        self.start_from(found.as_ref())?;
        self.world.chances = CHANCES;
        Ok(())
    }

    /// The newest save that is whole. One that no gateway saved is refused.
    fn newest(&mut self) -> Result<Option<Found>, Wrong> {
        let state = found_at(&mut self.world, self.alloc, STATE);
        let Some(latest) = found_at(&mut self.world, self.alloc, LATEST) else {
            return Ok(state);
        };
        let is_newer = match &state {
            Some(state) => state.moment < latest.moment,
            None => true,
        };
        let octets = latest.octets.as_slice();
        if self.saved_as(octets).is_ok() {
            return Ok(if is_newer { Some(latest) } else { state });
        }
        match station_from(self.alloc, Some(octets), false) {
            Ok(_) => Err(Wrong::State),
            Err(_) => Ok(state),
        }
    }

    /// Starts a gateway from a save, and the machines from what was saved with it.
    fn start_from(&mut self, found: Option<&Found>) -> Result<(), Wrong> {
        let first = first_of(&mut self.world, found)?;
        let (saved, falls) = match found {
            Some(found) => (
                Some(self.saved_as(found.octets.as_slice())?),
                is_stale(first, found.moment, STALE_MS),
            ),
            None => (None, false),
        };
        let service = service_from(self.alloc, saved, falls)?;
        let machines = Machines::from(self.alloc, saved, falls)?;
        self.service = service;
        self.machines = machines;
        self.moments = moments_from(&mut self.world, first)?;
        self.held.clear();
        self.missed = [UNSURE; CALLS];
        self.loopback.failed = 0;
        self.answered = 0;
        self.dropped = 0;
        self.tally.ends = self.tally.ends.saturating_add(1);
        Ok(())
    }

    /// What was saved with these octets.
    fn saved_as(&self, octets: &[u8]) -> Result<&Saved, Wrong> {
        for saved in self.saved.as_slice() {
            if saved.state.as_slice() == octets {
                return Ok(saved);
            }
        }
        Err(Wrong::State)
    }

    /// Whether the counts are those of what was done since the last start.
    fn check_counts(&self) -> Result<(), Wrong> {
        let mut failed = 0u64;
        for (_, counts) in self.service.station.counters() {
            failed = failed.saturating_add(counts.failed_sends);
        }
        let answered = self.service.station.totals().datagrams;
        let dropped = self.service.moves.dropped();
        let is_right = answered == self.answered
            && failed == self.loopback.failed
            && dropped == self.dropped;
        if is_right { Ok(()) } else { Err(Wrong::Counts) }
    }
}
