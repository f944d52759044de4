//! Many arrivals in one call.

/// One of many packets: `struct polorowan_packet` of include/polorowan.h.
#[repr(C)]
#[derive(Clone, Copy)]
pub struct RohcPacket {
    /// Its link.
    pub link: u16,
    /// Its arrival time, in milliseconds.
    pub moment: u64,
    /// Where its octets begin among those of all packets.
    pub at: usize,
    /// How many octets it has.
    pub count: usize,
}
