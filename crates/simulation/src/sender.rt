//! The sender of a call, and senders of packets that are no packets.

use arrayvec::ArrayVec;
use rohc_simulated::Random;

/// How much the timestamp grows from packet to packet.
const STRIDE: u32 = 160;

/// How many calls there are.
pub(crate) const CALLS: usize = 3;

/// Each packet of which the SN is a multiple of this is an IR.
const PERIOD: u16 = 24;

/// A packet, or a datagram with one.
pub(crate) type Octets = ArrayVec<u8, 64>;

/// A call, with its next packet as its sender sees it.
#[derive(Clone, Copy)]
pub(crate) struct Call {
    pub(crate) link: u16,
    /// The CID, below 16.
    pub(crate) cid: u8,
    sn: u16,
    ts: u32,
}

/// Appends these octets, as far as there is room.
fn put<const N: usize>(octets: &mut ArrayVec<u8, N>, more: &[u8]) {
    for octet in more {
        let _ = octets.try_push(*octet);
    }
}

/// The check of some octets, bit by bit (RFC 3095 5.9). The register starts from all ones. The polynomial is given without its
/// highest power, with the lowest power in the highest bit.
fn check(parts: &[&[u8]], ones: u8, poly: u8) -> u8 {
    let mut register = ones;
    for part in parts {
        for octet in *part {
            register = shifted(register, *octet, poly);
        }
    }
    register
}

/// The register after the bits of an octet, least significant first.
fn shifted(register: u8, octet: u8, poly: u8) -> u8 {
    let mut register = register;
    let mut bits = octet;
    for _ in 0..8u8 {
        let out = (register ^ bits) & 1 == 1;
        register >>= 1;
        bits >>= 1;
        if out {
            register ^= poly;
        }
    }
    register
}

/// The octets of a header between two places.
fn part_of(header: &[u8], start: usize, end: usize) -> &[u8] {
    header.get(start..end).unwrap_or(b"")
}

/// The three bits of the check over a header: over its static octets, and then over its dynamic ones (RFC 3095 5.9.2).
fn check_3(header: &[u8]) -> u8 {
    let parts = [
        part_of(header, 0, 2),
        part_of(header, 6, 10),
        part_of(header, 12, 24),
        part_of(header, 28, 29),
        part_of(header, 36, 40),
        part_of(header, 2, 6),
        part_of(header, 10, 12),
        part_of(header, 24, 28),
        part_of(header, 29, 36),
    ];
    check(&parts, 0x07, 0x06) % 8
}

impl Call {
    /// A call of a CID of a link.
    pub(crate) fn new(link: u16, cid: u8) -> Call {
        Call {
            link,
            cid,
            sn: 0,
            ts: 0,
        }
    }

    /// Goes on to the next packet.
    pub(crate) fn go_on(&mut self) {
        self.sn = self.sn.wrapping_add(1);
        self.ts = self.ts.wrapping_add(STRIDE);
    }

    /// Its header: IPv4, UDP and RTP. The Identification is the SN, so the header sum falls as the SN grows.
    fn header(self) -> ArrayVec<u8, 40> {
        let mut head = ArrayVec::new();
        put(&mut head, b"\x45\x00\x00\x29");
        put(&mut head, &self.sn.to_be_bytes());
        put(&mut head, b"\x00\x00\x40\x11");
        put(&mut head, &0x66c2u16.wrapping_sub(self.sn).to_be_bytes());
        put(&mut head, b"\x0a\x00\x00\x01\x0a\x00\x00\x02");
        put(&mut head, b"\x13\x88\x13\x8a\x00\x15\x00\x00\x80\x00");
        put(&mut head, &self.sn.to_be_bytes());
        put(&mut head, &self.ts.to_be_bytes());
        put(&mut head, &[0, 0, 0, self.cid]);
        head
    }

    /// Appends the octet that names the CID, unless it is 0 (RFC 3095 5.2.1).
    fn put_cid(self, octets: &mut Octets) {
        if self.cid > 0 {
            put(octets, &[0xe0 | self.cid & 0x0f]);
        }
    }

    /// Its IR: static chain, dynamic chain, and the payload `ac`. It gives the stride.
    fn ir(self) -> Octets {
        let mut octets = Octets::new();
        self.put_cid(&mut octets);
        let place = octets.len().saturating_add(2);
        put(&mut octets, b"\xfd\x01\x00\x40\x11\x0a\x00\x00\x01");
        put(&mut octets, b"\x0a\x00\x00\x02\x13\x88\x13\x8a\x00\x00\x00");
        put(&mut octets, &[self.cid]);
        put(&mut octets, b"\x00\x40");
        put(&mut octets, &self.sn.to_be_bytes());
        put(&mut octets, b"\x20\x00\x00\x00\x90\x00");
        put(&mut octets, &self.sn.to_be_bytes());
        put(&mut octets, &self.ts.to_be_bytes());
        put(&mut octets, b"\x00\x09\x80\xa0");
        let sum = check(&[octets.as_slice()], 0xff, 0xe0);
        if let Some(octet) = octets.get_mut(place) {
            *octet = sum;
        }
        put(&mut octets, b"\xac");
        octets
    }

    /// Its UO-0, with the payload `ac`.
    fn uo_0(self) -> Octets {
        let mut octets = Octets::new();
        self.put_cid(&mut octets);
        let sn = (self.sn % 16) as u8;
        put(&mut octets, &[sn << 3 | check_3(self.header().as_slice())]);
        put(&mut octets, b"\xac");
        octets
    }

    /// Its packet: an IR now and then, else a UO-0.
    pub(crate) fn packet(self) -> Octets {
        if self.sn % PERIOD == 0 {
            self.ir()
        } else {
            self.uo_0()
        }
    }

    /// Whether a datagram is of this call, by its link and its CID.
    pub(crate) fn is_of(&self, datagram: &Octets) -> bool {
        let first = *datagram.get(2).unwrap_or(&0);
        let cid = if first >> 4 == 0x0e { first & 0x0f } else { 0 };
        datagram.get(..2) == Some(self.link.to_be_bytes().as_slice()) && cid == self.cid
    }

    /// Whether a packet is one that the sender of the call sent: a header of one of its SNs, and the payload.
    pub(crate) fn sent(&self, packet: &Octets) -> bool {
        let sn = match (packet.get(4), packet.get(5)) {
            (Some(high), Some(low)) => u16::from_be_bytes([*high, *low]),
            _ => return false,
        };
        let then = Call {
            sn,
            ts: u32::from(sn) * STRIDE,
            ..*self
        };
        let mut octets = Octets::new();
        put(&mut octets, then.header().as_slice());
        put(&mut octets, b"\xac");
        sn <= self.sn && octets.as_slice() == packet.as_slice()
    }
}

/// These octets, as far as there is room.
pub(crate) fn octets_of(some: &[u8]) -> Octets {
    let mut octets = Octets::new();
    put(&mut octets, some);
    octets
}

/// Whether a datagram has an IR, without an Add-CID octet or behind one.
pub(crate) fn has_ir(datagram: &Octets) -> bool {
    let is_ir = |place: usize| datagram.get(place) == Some(&0xfd);
    is_ir(2) || is_ir(3)
}

/// Octets for a CID from 8 on, some like the beginning of a packet.
pub(crate) fn hostile(random: &mut Random) -> Octets {
    let mut octets = Octets::new();
    let cid = random.below(8) as u8 | 8;
    put(&mut octets, &[0xe0 | cid]);
    let first = [0xfc, 0xfd, 0xf8, 0x10, 0xc0, 0x80, 0xf1, 0xff];
    let place = random.below(8) as usize;
    put(&mut octets, &[*first.get(place).unwrap_or(&0)]);
    for _ in 0..random.below(24) {
        put(&mut octets, &[random.below(256) as u8]);
    }
    octets
}

/// A datagram: a packet behind the number of its link.
pub(crate) fn datagram(link: u16, packet: &[u8]) -> Octets {
    let mut octets = Octets::new();
    put(&mut octets, &link.to_be_bytes());
    put(&mut octets, packet);
    octets
}
