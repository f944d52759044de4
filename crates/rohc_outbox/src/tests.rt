//! Two datagrams to two ports, and in which order they leave.

use crate::{Outbox, ROOM, Waiting};
use std::process::Abort;

#[test]
fn leave_in_order(rt: HostRuntime) {
    let alloc = rt.alloc();
    let mut outbox = Outbox::new(alloc).expect(&rt, "memory");
    let mut buffer = vec![in alloc; 0u8; ROOM].expect(&rt, "memory");
    assert!(rt; outbox.is_empty());
    assert!(rt; outbox.add(5004, 6000, b"one"));
    assert!(rt; outbox.add(5006, 6002, b"second"));
    assert!(rt; outbox.waits_for(6000));
    assert!(rt; !outbox.waits_for(5004));
    let one = Waiting {
        from: 5004,
        to: 6000,
        length: 3,
    };
    assert!(rt; outbox.take(buffer.as_mut_slice()) == Some(one));
    assert!(rt; buffer.as_slice().starts_with(b"one"));
    assert!(rt; !outbox.waits_for(6000));
    assert!(rt; outbox.waits_for(6002));
    let second = Waiting {
        from: 5006,
        to: 6002,
        length: 6,
    };
    assert!(rt; outbox.take(buffer.as_mut_slice()) == Some(second));
    assert!(rt; buffer.as_slice().starts_with(b"second"));
    assert!(rt; outbox.is_empty());
    assert!(rt; outbox.take(buffer.as_mut_slice()).is_none());
}
