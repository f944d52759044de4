//! A stop: it is done once the datagrams were answered that waited in the sockets, and none is received after its save.

use crate::answers::Reply;
use crate::connection::Progress;
use crate::gateway::Gateway;
use std::rt::Files;
use std::time::Clock;

/// How long a stop waits for sockets that never get empty, in milliseconds.
const LONGEST_WAIT: u64 = 1000;

/// A stop that was asked for.
#[derive(Clone, Copy)]
pub(crate) struct Stop {
    /// The place of its connection.
    place: usize,
    /// Until when it waits.
    end: u64,
}

/// Whether a stop was asked for by the connection at a place.
pub(crate) fn is_asked_by(stop: Option<Stop>, place: usize) -> bool {
    match stop {
        Some(stop) => stop.place == place,
        None => false,
    }
}

impl Gateway<'_> {
    /// Stops soon, as the connection at a place asked.
    pub(crate) fn await_stop<R: Clock + AllocGlobal>(&mut self, rt: &R, place: usize) -> Progress {
        if self.stop.is_none() {
            let end = self.now(rt).saturating_add(LONGEST_WAIT);
            self.stop = Some(Stop { place, end });
            return Progress::Waits;
        }
        let text = "the gateway is being stopped; expected its end";
        match Reply::fault(rt.alloc(), 409, "Busy", text) {
            Ok(reply) => self.send_answer(rt.alloc(), place, &reply),
            Err(_) => Progress::Ended,
        }
    }

    /// Does a stop that was asked for, if no datagram waits, or if it has waited long enough. If the contexts can't be saved,
    /// the gateway continues.
    pub(crate) fn stop_in_time<R>(&mut self, rt: &R, moment: u64, is_drained: bool)
    where
        R: Files + Clock + Eprint + AllocGlobal,
    {
        let Some(Stop { place, end }) = self.stop else {
            return;
        };
        if !is_drained && moment < end {
            return;
        }
        self.stop = None;
        let reply = self.save_and_stop(rt);
        self.end_request(rt.alloc(), place, reply);
    }
}
