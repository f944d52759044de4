//! A service on its happy path.

use crate::examples::whole_ir;
use crate::station::station;
use rohc_serve::Front;
use rohc_station::{Duty, Observer, Port, Queue, Seen, Service, Taken, Wish};

// How many packets wait, each example *whole IR*, and the ports to which something was sent.
#[derive(Drop)]
struct Waiting {
    left: u32,
    ports: Vec<u16>,
}

impl Front for Waiting {
    fn receive(&mut self, buffer: &mut [u8]) -> Option<(usize, u64)> {
        self.left = self.left.checked_sub(1)?;
        let packet = whole_ir();
        buffer.get_mut(..packet.len())?.copy_from_slice(packet);
        Some((packet.len(), 1000))
    }

    fn send(&mut self, port: u16, _octets: &[u8]) -> bool {
        self.ports.push(port).is_ok()
    }
}

impl Queue for Waiting {
    fn is_empty(&self) -> bool {
        self.left == 0
    }
}

// An observer who counts the datagrams that were answered.
#[derive(Drop)]
struct Counting {
    answered: u64,
}

impl Observer for Counting {
    fn wish(&self) -> Wish {
        Wish::Arrivals
    }

    fn see(&mut self, seen: &Seen<'_>, _taken: &Taken<'_>) {
        let is_read = seen.arrival.is_some();
        self.answered = self.answered.saturating_add(u64::from(is_read));
    }
}

// At the port of link 4 the packet is answered. At that of link 5, which is held, it waits. Once more at that of link 4, which was
// exported, it is dropped.
#[test]
fn a_service_serves_its_ports(rt: HostRuntime) {
    let station = station(&rt, 4, 5);
    let mut service = Service::new(rt.alloc(), station).expect(&rt, "no memory");
    let mut queue = Waiting {
        left: 1,
        ports: Vec::new(rt.alloc()),
    };
    let mut counting = Counting { answered: 0 };
    let duty = Duty {
        is_draining: false,
        is_numbered: false,
    };
    assert!(rt; !service.serve(&mut queue, &mut counting, duty, Port::Link(4)));
    assert!(rt; queue.ports.as_slice() == [6001, 6002].as_slice());
    assert!(rt; service.moves.hold(rt.alloc(), 5).is_ok());
    queue.left = 1;
    assert!(rt; !service.serve(&mut queue, &mut counting, duty, Port::Link(5)));
    assert!(rt; counting.answered == 1 && queue.ports.len() == 2);
    let Some(held) = service.moves.release() else {
        panic!(rt; "no link is held");
    };
    assert!(rt; held.link() == 5 && held.count() == 1);
    service.answer_held(&mut queue, duty, &held);
    assert!(rt; queue.ports.as_slice() == [6001, 6002, 6001, 6002].as_slice());
    assert!(rt; service.moves.export(4).is_ok());
    queue.left = 1;
    assert!(rt; !service.serve(&mut queue, &mut counting, duty, Port::Link(4)));
    assert!(rt; service.moves.dropped() == 1 && queue.ports.len() == 4);
}
