//! What several tests take from the worked examples.

/// A datagram of link 4 with the IR of example *whole IR* of docs/EXAMPLES.md, with which a call begins.
pub(crate) const DATAGRAM: &[u8] =
    b"\x00\x04\xfd\x01\x2b\x40\x11\x0a\x00\x00\x01\x0a\x00\x00\x02\x13\x88\x13\x8a\x00\x00\x00\x01\x00\x40\x00\x01\x20\x00\x00\x00\x90\x00\x00\x01\x00\x00\x00\xa0\x00\x09\x80\xa0\xab";

/// That IR: SN 1, timestamp 160 and the stride 160.
pub(crate) fn whole_ir() -> &'static [u8] {
    &DATAGRAM[2..]
}
