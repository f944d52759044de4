//! The packets of a source, one after another: of a script, or of a capture.

use crate::carriage::Carriage;
use rohc_capture::{Capture, CaptureFault, FaultKind};
use rohctl_ground::{Line, Reason, Stop, Taker, is_capture_front, read_script};
use std::alloc::Global;
use std::io::Read;

/// What there was beside the packets.
#[derive(Clone, Copy, PartialEq, Eq)]
pub struct Rest {
    /// The frames that no rule speaks of, or that carry no packet.
    pub left_out: u64,
    /// Why a capture was read no further.
    pub fault: Option<CaptureFault>,
}

/// What there was beside the packets of a capture that is read no further for this fault. Lack of memory is no fault of
/// the capture, so it stops the run.
fn rest_before(left_out: u64, fault: CaptureFault) -> Result<Rest, Stop> {
    if fault.kind == FaultKind::NoMemory {
        return Err(Stop::Memory);
    }
    Ok(Rest {
        left_out,
        fault: Some(fault),
    })
}

/// Has the packets of a capture taken.
fn take_frames<S: Read, T: Taker>(
    capture: &mut Capture<S>,
    carriage: &Carriage<'_>,
    taker: &mut T,
) -> Result<Rest, Stop> {
    let mut rest = Rest {
        left_out: 0,
        fault: None,
    };
    for frame in 1..u64::MAX {
        let record = match capture.next() {
            Ok(Some(record)) => record,
            Ok(None) => break,
            Err(fault) => return rest_before(rest.left_out, fault),
        };
        let octets = capture.frame();
        let Some((link, packet)) = carriage.packet_of(&record, octets) else {
            rest.left_out = rest.left_out.saturating_add(1);
            continue;
        };
        if !carriage.is_sent(&record, octets) {
            continue;
        }
        let line = Line::Arrive {
            link,
            moment: record.nanos / 1_000_000,
            packet,
        };
        taker.place(record.place);
        taker.take(frame, line)?;
    }
    Ok(rest)
}

/// Has the packets of a source taken: of a capture with this carriage, or of a script.
pub fn take_source<S: Read, T: Taker>(
    alloc: Global,
    source: &mut S,
    carriage: Option<&Carriage<'_>>,
    taker: &mut T,
) -> Result<Rest, Stop> {
    let Some(carriage) = carriage else {
        read_script(alloc, source, taker)?;
        return Ok(Rest {
            left_out: 0,
            fault: None,
        });
    };
    match Capture::new(alloc, source) {
        Ok(mut capture) => take_frames(&mut capture, carriage, taker),
        Err(fault) => rest_before(0, fault),
    }
}

/// How many octets decide whether a source is a capture.
const FRONT: usize = 4;

/// The first octets of a source: as many as decide whether it is a capture, or all.
#[derive(Clone, Copy)]
pub struct Front {
    octets: [u8; FRONT],
    count: usize,
}

impl Front {
    /// Reads the first octets of a source.
    pub fn read<S: Read>(source: &mut S) -> Result<Front, Reason> {
        let mut front = Front {
            octets: [0; FRONT],
            count: 0,
        };
        for _ in 0..FRONT {
            let count = front.count;
            let Some(room) = front.octets.get_mut(count..) else {
                break;
            };
            match source.read(room) {
                Ok(0) => break,
                Ok(more) => front.count = count.saturating_add(more),
                Err(error) => return Err(Reason::of(&error)),
            }
        }
        Ok(front)
    }

    /// The octets.
    pub fn as_slice(&self) -> &[u8] {
        self.octets.get(..self.count).unwrap_or(&[])
    }

    /// Whether a capture begins so.
    pub fn is_capture(&self) -> bool {
        is_capture_front(self.as_slice())
    }
}
