//! References: what packets of kind Other are decoded against.

ghost use Rattle.std.specs.Prelude.{◌≡◌, true, Some, option_map};
ghost use Rattle.std.specs.Option.{ForSome};
ghost use Rattle.rohc_context.specs.Previous.{fields_by, whole_by, IsAlike};

use rohc_header::Dynamic;

/// The fields of the last accepted header, as later packets are decoded against them.
#[derive(Clone, Copy)]
pub(crate) struct Reference {
    /// The fields without the marker, and with the RND, NBO and stride in force.
    pub moving: Dynamic,
    /// Whether packets carry a UDP checksum.
    pub carries_sum: bool,
    /// The registers of the 3-bit and the 7-bit check after the static octets of headers with these
    /// fields.
    pub saved: (u8, u8),
}

/// What is kept of the previous reference beside the reference: the fields in which the two may differ. RND, NBO, the
/// stride and whether packets carry a UDP checksum are the same for both. Its numbers stand as those of `Dynamic` do, so
/// that neighbours are copied together.
#[derive(Clone, Copy)]
pub(crate) struct Previous {
    /// The type of service (TOS).
    pub tos: u8,
    /// The time to live (TTL).
    pub ttl: u8,
    /// The Identification.
    pub id: u16,
    /// The UDP checksum.
    pub udp_sum: u16,
    /// RTP's sequence number.
    pub sn: u16,
    /// RTP's timestamp.
    pub ts: u32,
    /// RTP's payload type.
    pub payload_type: u8,
    /// The flag Don't Fragment.
    pub df: bool,
    /// RTP's padding flag.
    pub padding: bool,
    /// RTP's extension flag.
    pub extension: bool,
    /// The registers of the 3-bit and the 7-bit check after the static octets of headers with these
    /// fields.
    pub saved: (u8, u8),
    /// Set only if it differs from the reference only in its numbers: Identification, UDP checksum, sequence number and
    /// timestamp. It may be unset and differ in no more all the same.
    pub alike: bool,
}

impl Previous {
    /// What is kept of this reference. `alike` is whether the next one will differ from it only in its numbers.
    pub(crate) fn of(reference: &Reference, alike: bool) -> Previous
        ensures fields { fields_by reference.now.moving result ≡ reference.now.moving }
        ensures saved { result.saved ≡ reference.now.saved }
        ensures alike { result.alike ≡ alike }
    {
        let moving = &reference.moving;
        Previous {
            tos: moving.tos,
            ttl: moving.ttl,
            id: moving.id,
            udp_sum: moving.udp_sum,
            sn: moving.sn,
            ts: moving.ts,
            payload_type: moving.payload_type,
            df: moving.df,
            padding: moving.padding,
            extension: moving.extension,
            saved: reference.saved,
            alike,
        }
    }

    /// Keeps this reference as the previous one, with all its fields.
    #[cold]
    #[inline(never)]
    fn keep_whole(kept: &mut Option<Previous>, reference: &Reference)
        ensures { option_map (whole_by reference.now.moving) kept.new ≡ Some (reference.now.moving, reference.now.saved) }
    {
        *kept = Some(Previous::of(reference, true));
    }

    /// Takes the numbers of this reference, from which the previous one differs only in its numbers.
    #[inline(always)]
    pub(crate) fn take_numbers(&mut self, reference: &Reference)
        requires alike { IsAlike reference.now self.old }
        ensures fields { fields_by reference.now.moving self.new ≡ reference.now.moving }
        ensures saved { self.new.saved ≡ reference.now.saved }
    {
        let moving = &reference.moving;
        self.id = moving.id;
        self.udp_sum = moving.udp_sum;
        self.sn = moving.sn;
        self.ts = moving.ts;
    }

    /// Keeps this reference as the previous one, before one that differs from it only in its numbers. If the one before it
    /// did so too, numbers are all that is written.
    #[inline(always)]
    pub(crate) fn keep(kept: &mut Option<Previous>, reference: &Reference)
        requires near { ForSome kept.old (λ p. p.alike ≡ true → IsAlike reference.now p) }
        ensures { option_map (whole_by reference.now.moving) kept.new ≡ Some (reference.now.moving, reference.now.saved) }
    {
        match kept {
            Some(previous) if previous.alike => previous.take_numbers(reference),
            _ => Previous::keep_whole(kept, reference),
        }
    }

    /// The whole of the previous reference, beside this reference.
    pub(crate) fn beside(&self, reference: &Reference) -> Reference
        ensures fields { result.moving ≡ fields_by reference.now.moving self.now }
        ensures sum { result.carries_sum ≡ reference.now.carries_sum }
        ensures saved { result.saved ≡ self.now.saved }
    {
        let moving = Dynamic {
            tos: self.tos,
            ttl: self.ttl,
            id: self.id,
            udp_sum: self.udp_sum,
            sn: self.sn,
            ts: self.ts,
            payload_type: self.payload_type,
            df: self.df,
            padding: self.padding,
            extension: self.extension,
            ..reference.moving
        };
        Reference {
            moving,
            carries_sum: reference.carries_sum,
            saved: self.saved,
        }
    }
}
