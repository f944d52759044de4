//! What several tests take from the worked examples.

/// The IR of example *whole IR*, with which a call begins: SN 1, timestamp 160 and the stride 160.
pub(crate) const WHOLE_IR: &[u8] =
    b"\xfd\x01\x2b\x40\x11\x0a\x00\x00\x01\x0a\x00\x00\x02\x13\x88\x13\x8a\x00\x00\x00\x01\x00\x40\x00\x01\x20\x00\x00\x00\x90\x00\x00\x01\x00\x00\x00\xa0\x00\x09\x80\xa0\xab";

/// Links 1 to 3 of the worked examples.
pub(crate) const LINKS: &str = "version = 1
[[link]]
number = 1
cid = \"small\"
max_cid = 15
mode = \"O\"
k1 = 2
n1 = 3
k2 = 2
n2 = 3
packet_ms = 20
static_nack_ms = 1000
deliver_port = 6001
feedback_port = 6002
relay_port = 6003
[[link]]
number = 2
cid = \"large\"
max_cid = 16383
mode = \"O\"
k1 = 2
n1 = 3
k2 = 2
n2 = 3
packet_ms = 20
static_nack_ms = 1000
deliver_port = 6004
feedback_port = 6005
relay_port = 6006
[[link]]
number = 3
cid = \"small\"
max_cid = 3
mode = \"U\"
k1 = 2
n1 = 3
k2 = 2
n2 = 3
packet_ms = 20
static_nack_ms = 1000
deliver_port = 6007
feedback_port = 6008
relay_port = 6009
";
