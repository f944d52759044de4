//! One packet, explained: its fields, what its context held and makes of it, and the answer of the step.

use crate::element::{ToldElement, elements_in};
use crate::falls::Fall;
use crate::held::{fixed_in, reference_in, sn_in};
use crate::rebuilt::Rebuilt;
use rohc_concentrator::{Answer, Concentrator, LinkRecords};
use rohc_context::{Delivered, Outcome, ReferenceView, Refusal, Reply, Settings, Try, View};
use rohc_explain::{PacketFields, PacketKind, Terms, packet_fields};
use rohc_feedback::Element;
use rohc_forms::{FormKind, read_form};
use rohc_frame::{CidKind, Elements, Forward, HeadKind, cut};
use rohc_header::Static;
use rohctl_captures::Seen;
use rohctl_ground::Stop;
use std::alloc::Global;
use std::io;
use std::io::Write;

/// The answer to a packet, in a word.
#[derive(Clone, Copy, PartialEq, Eq)]
pub enum Got {
    /// A packet of so many octets was delivered.
    Delivered(usize),
    Stored,
    /// The packet has only padding and feedback.
    OnlyFront,
    Refused(Refusal),
}

/// A packet, explained.
#[derive(Drop)]
pub struct Explained {
    pub link: u16,
    pub cid: Option<u16>,
    pub moment: u64,
    pub octets: usize,
    /// The fields, if there is such a link.
    pub told: Option<PacketFields>,
    /// The settings of the CID.
    pub settings: Option<Settings>,
    pub before: Option<View>,
    /// The tries that its context makes of it, if it makes some.
    pub tries: Option<[Try; 3]>,
    pub got: Got,
    /// The fall of the context for which the packet is refused, if it is known.
    pub fall: Option<Fall>,
    /// The packet that was delivered, if one was.
    pub packet: Option<Rebuilt>,
    /// The SN of the header that was delivered, if it is one of RTP.
    pub sn: Option<u16>,
    /// The feedback that the compressor gets.
    pub feedback: Option<Element>,
    /// The feedback elements in the packet.
    pub elements: Vec<ToldElement>,
    /// How many feedback elements the packet has for this side's compressor.
    pub relayed: u64,
    pub after: Option<View>,
    /// The CID kind with which the packet comes farther, if its link is only assumed and has the other kind.
    pub better: Option<CidKind>,
}

impl Explained {
    /// The try that fits, from 0 on, if tries were made.
    pub fn fitting(&self) -> Option<usize> {
        let tries = self.tries.as_ref()?;
        tries.iter().position(|one| one.fits())
    }

    /// The addresses, the ports and the SSRC of the call, if its context keeps them behind the packet or kept them before.
    pub fn fixed(&self) -> Option<&Static> {
        for view in [&self.after, &self.before] {
            if let Some(view) = view
                && let Some(fixed) = fixed_in(view)
            {
                return Some(fixed);
            }
        }
        None
    }

    /// What decides whether it is shown; it stands in this line or frame.
    pub fn seen(&self, number: u64) -> Seen {
        Seen {
            number,
            link: self.link,
            cid: self.cid,
            moment: self.moment,
        }
    }

    /// Whether the packet is an IR.
    pub fn is_ir(&self) -> bool {
        match &self.told {
            Some(told) => told.kind == PacketKind::Ir,
            None => false,
        }
    }

    /// The SN of the last header that was accepted before, if a context that counts keeps it.
    pub fn sn_before(&self) -> Option<u16> {
        sn_in(self.counted()?)
    }
}

/// Whether a record counts so many milliseconds after its last accepted packet (docs/FORMATS.md, *States*).
pub(crate) fn counts_after(settings: &Settings, passed: u64) -> bool {
    settings.idle_ms == 0 || passed < u64::from(settings.idle_ms)
}

/// What became of a packet by its context's reply, in a word.
fn got_of(reply: &Reply<'_>) -> Got {
    match (reply.outcome, &reply.packet) {
        (Outcome::Refused(refusal), _) => Got::Refused(refusal),
        (_, Some(packet)) => {
            Got::Delivered(packet.head.len().saturating_add(packet.payload.len()))
        }
        (_, None) => Got::Stored,
    }
}

/// The SN of a rebuilt header, which has 40 octets if it is one of RTP (docs/FORMATS.md).
fn sn_of(packet: &Delivered<'_>) -> Option<u16> {
    let head = packet.head.as_slice();
    if head.len() < 40 {
        return None;
    }
    Some(u16::from_be_bytes([head[30], head[31]]))
}

/// How many elements there are.
fn count_of(elements: Elements<'_>) -> u64 {
    let mut count = 0u64;
    for _ in elements {
        count = count.saturating_add(1);
    }
    count
}

impl Explained {
    /// The context before the packet, if it counts.
    fn counted(&self) -> Option<&View> {
        let (Some(view), Some(settings)) = (&self.before, &self.settings) else {
            return None;
        };
        if counts_after(settings, self.moment.saturating_sub(view.accepted)) {
            Some(view)
        } else {
            None
        }
    }

    /// Adds the packet that was delivered, and writes its octets.
    fn take_delivered<W: Write>(
        &mut self,
        alloc: Global,
        packet: &Delivered<'_>,
        out: &mut W,
    ) -> io::Result<()> {
        self.sn = sn_of(packet);
        self.packet = Some(Rebuilt::of(alloc, packet, self.counted()));
        out.write_all(packet.head.as_slice())?;
        out.write_all(packet.payload)
    }

    /// Adds the answer, and writes the octets of the packet that it delivers.
    fn take_answer<W: Write>(
        &mut self,
        alloc: Global,
        answer: Answer<'_>,
        out: &mut W,
    ) -> io::Result<()> {
        match answer {
            Answer::Refused(refusal) => self.got = Got::Refused(refusal),
            Answer::OnlyFront { relayed } => self.relayed = count_of(relayed),
            Answer::Arrived { reply, relayed, .. } => {
                self.relayed = count_of(relayed);
                self.got = got_of(&reply);
                if let Some(packet) = &reply.packet {
                    self.take_delivered(alloc, packet, out)?;
                }
                self.feedback = reply.feedback;
            }
        }
        Ok(())
    }
}

/// The format of a refused packet: as it is read, or by its first octets if it can't be read to its end.
fn kind_under(reference: &ReferenceView, forward: &Forward<'_>) -> FormKind {
    let kept = &reference.moving;
    if let HeadKind::Other = forward.kind
        && let Ok(form) = read_form(
            forward,
            kept.rnd,
            reference.carries_sum,
            kept.stride.is_some(),
        )
    {
        return form.kind;
    }
    let second = forward.rest.first().copied().unwrap_or(0);
    FormKind::of(forward.first, second, kept.rnd)
}

impl Explained {
    /// Adds the CID, what its context holds before the step, and the tries. Returns what the reference says of its octets.
    fn take_header(&mut self, records: &LinkRecords, forward: &Forward<'_>) -> Option<Terms> {
        let settings = records.setting.settings_of(forward.cid);
        self.cid = Some(forward.cid);
        self.settings = Some(settings);
        let context = records.contexts.get(&forward.cid)?;
        let view = context.view();
        let tries = context.tries(&settings, self.moment, forward);
        let terms = reference_in(&view).map(|reference| Terms {
            rnd: reference.moving.rnd,
            udp_sum: reference.carries_sum,
            kind: match &tries {
                Ok(tries) => tries.form.kind,
                Err(_) => kind_under(reference, forward),
            },
        });
        self.tries = tries.ok().map(|tries| tries.tries);
        self.before = Some(view);
        terms
    }

    /// Adds what is known before the step: the fields, the context and the tries; nothing if there is no such link.
    fn take_packet(
        &mut self,
        alloc: Global,
        concentrator: &Concentrator,
        octets: &[u8],
    ) -> Result<(), Stop> {
        let Some(records) = concentrator.tables().get(&self.link) else {
            return Ok(());
        };
        let size = records.setting.settings.size;
        let mut terms = None;
        if let Ok(framed) = cut(size, records.setting.settings.max_cid, octets)
            && let Some(forward) = &framed.forward
        {
            terms = self.take_header(records, forward);
        }
        let told = packet_fields(alloc, size, octets, terms).map_err(|_| Stop::Memory)?;
        self.elements = elements_in(alloc, size, octets, &told).map_err(|_| Stop::Memory)?;
        self.told = Some(told);
        Ok(())
    }

    /// Adds what its context holds after the step.
    fn take_after(&mut self, concentrator: &Concentrator) {
        if let Some(cid) = self.cid
            && let Some(records) = concentrator.tables().get(&self.link)
        {
            self.after = records.contexts.get(&cid).map(|context| context.view());
        }
    }
}

/// A packet of which nothing is known yet.
fn unexplained(alloc: Global, link: u16, moment: u64, octets: usize) -> Explained {
    Explained {
        link,
        cid: None,
        moment,
        octets,
        told: None,
        settings: None,
        before: None,
        tries: None,
        got: Got::OnlyFront,
        fall: None,
        packet: None,
        sn: None,
        feedback: None,
        elements: Vec::new(alloc),
        relayed: 0,
        after: None,
        better: None,
    }
}

/// Runs a packet, tells what there is of it, and writes the octets of the packet that it delivers. The error is that there is
/// no memory, also for a write that failed.
pub(crate) fn explain_into<W: Write>(
    alloc: Global,
    concentrator: &mut Concentrator,
    link: u16,
    moment: u64,
    octets: &[u8],
    out: &mut W,
) -> Result<Explained, Stop> {
    let mut explained = unexplained(alloc, link, moment, octets.len());
    explained.take_packet(alloc, concentrator, octets)?;
    let answer = concentrator.arrive(link, moment, octets);
    if explained.take_answer(alloc, answer, out).is_err() {
        return Err(Stop::Memory);
    }
    explained.take_after(concentrator);
    Ok(explained)
}

/// Runs a packet, and tells what there is of it. The error is that there is no memory.
pub fn explain_packet(
    alloc: Global,
    concentrator: &mut Concentrator,
    link: u16,
    moment: u64,
    octets: &[u8],
) -> Result<Explained, Stop> {
    explain_into(alloc, concentrator, link, moment, octets, &mut io::sink())
}
