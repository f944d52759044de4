//! A station on its happy path.

use crate::examples::DATAGRAM;
use rohc_concentrator::Concentrator;
use rohc_context::Refusal;
use rohc_links::{Links, read_links};
use rohc_saved::restore;
use rohc_serve::{Front, PacketBuffer};
use rohc_station::{
    Asked, CallCounts, CallList, Duty, Form, GatewayFigures, LinkLimits, LinkName, Listing, Page,
    ReloadReport, Request, RequestFault, Station, Subject, Timed, Unknown, arrival_in,
    read_request, timed_datagram,
};
use std::alloc::Global;
use std::mem;
use std::process::Abort;

// An entry of a links file behind its number.
const REST: &str =
    "\ncid = \"small\"\nmax_cid = 15\nmode = \"O\"\nk1 = 2\nn1 = 3\nk2 = 2\nn2 = 3\npacket_ms = 20\nstatic_nack_ms = 1000\ndeliver_port = 6001\nfeedback_port = 6002\nrelay_port = 6003\n";

// The links of a file with these two numbers.
fn links(rt: &(impl AllocGlobal + Abort), first: u16, second: u16) -> Links {
    let text = format!(in rt.alloc();
        "version = 1\n[[link]]\nnumber = {first}{REST}[[link]]\nnumber = {second}{REST}"
    ).expect(rt, "no memory");
    read_links(rt.alloc(), text.as_str()).expect(rt, "no memory")
}

// The links of a file with 256 numbers from this one on.
fn many_links(rt: &(impl AllocGlobal + Abort), first: u16) -> Links {
    let mut text = String::new(rt.alloc());
    text.push_str("version = 1\n").expect(rt, "no memory");
    for place in 0..256u16 {
        let number = first.saturating_add(place);
        let entry = format!(in rt.alloc(); "[[link]]\nnumber = {number}{REST}").expect(
            rt,
            "no memory",
        );
        text.push_str(entry.as_str()).expect(rt, "no memory");
    }
    read_links(rt.alloc(), text.as_str()).expect(rt, "no memory")
}

// A station with these two links.
pub(crate) fn station(rt: &(impl AllocGlobal + Abort), first: u16, second: u16) -> Station {
    let links = links(rt, first, second);
    let concentrator = Concentrator::new(rt.alloc(), links.settings()).expect(rt, "no memory");
    Station::new(rt.alloc(), concentrator, links).expect(rt, "no memory")
}

#[test]
fn reads_a_timed_datagram(rt: HostRuntime) {
    let octets = [1, 2, 0, 0, 0, 0, 0, 0, 3, 4, 0xfd, 0x00];
    let timed = timed_datagram(&octets).expect(&rt, "it is there");
    assert_eq!(rt; timed.link, 258);
    assert_eq!(rt; timed.moment, 772);
    assert_eq!(rt; timed.packet, [0xfd, 0x00].as_slice());
    assert!(rt; timed_datagram(&octets[..9]).is_none());
}

// What a request of this head asks for.
fn asked(head: &str) -> Asked {
    read_request(head.as_bytes())
}

#[test]
fn reads_requests(rt: HostRuntime) {
    let reset = Request::Reset {
        link: 4,
        cid: Some(16383),
    };
    assert!(rt;
        asked("POST /stop HTTP/1.1\r\nHost: x\r\nContent-Length: 0\r\n\r\n")
            == Asked::Whole(Request::Stop)
    );
    assert!(rt; asked("POST /reset?link=4&cid=16383 HTTP/1.1\r\n\r\n") == Asked::Whole(reset));
    assert!(rt;
        asked("GET /contexts?link=65535 HTTP/1.1\r\n\r\n")
            == Asked::Whole(Request::Contexts { link: 65_535 })
    );
    for (target, link, form) in [
        ("/calls", None, Form::Json),
        ("/calls?as=text", None, Form::Text),
        ("/calls?link=4", Some(4), Form::Json),
        ("/calls?link=4&as=text", Some(4), Form::Text),
    ] {
        let head = format!(in rt.alloc(); "GET {target} HTTP/1.1\r\n\r\n").expect(&rt, "no memory");
        assert!(rt; asked(head.as_str()) == Asked::Whole(Request::Calls { link, form }));
    }
    for target in [
        "/calls?",
        "/calls?as=json",
        "/calls?as=text&link=4",
        "/calls?link=4&cid=0",
    ] {
        let head = format!(in rt.alloc(); "GET {target} HTTP/1.1\r\n\r\n").expect(&rt, "no memory");
        assert!(rt; asked(head.as_str()) == Asked::Faulty(RequestFault::BadRequest));
    }
    assert!(rt;
        asked("GET /contexts?link=65536 HTTP/1.1\r\n\r\n")
            == Asked::Faulty(RequestFault::BadRequest)
    );
    assert!(rt;
        asked("GET /stop HTTP/1.1\r\n\r\n") == Asked::Faulty(RequestFault::MethodNotAllowed)
    );
    assert!(rt; asked("GET /nothing HTTP/1.1\r\n\r\n") == Asked::Faulty(RequestFault::NotFound));
    assert!(rt; asked("GET / HTTP/1.1\r\n\r\n") == Asked::Whole(Request::Page));
    assert!(rt;
        asked("POST /save HTTP/1.1\r\nContent-Length: 3\r\n\r\nabc")
            == Asked::Faulty(RequestFault::BadRequest)
    );
    assert!(rt; asked("GET /ready HTTP/1.1\r\nHost: x\r\n") == Asked::Unfinished);
}

// The calls of a station, 3 min 10 s after the first packet.
fn list(station: &Station, has_timed: bool) -> CallList<'_> {
    CallList {
        station,
        now: 191_000,
        has_timed,
    }
}

// A front that keeps what is sent to it, as ports and octets.
#[derive(Drop)]
struct Kept {
    ports: Vec<u16>,
    octets: Vec<u8>,
    fails: bool,
}

impl Front for Kept {
    fn receive(&mut self, _buffer: &mut [u8]) -> Option<(usize, u64)> {
        None
    }

    fn send(&mut self, port: u16, octets: &[u8]) -> bool {
        let is_kept = self.ports.push(port).is_ok()
            && self.octets.extend_from_slice(octets).is_ok();
        is_kept && !self.fails
    }
}

// Example *whole IR* on link 4: the packet, a header of 40 octets and `ab`, and then feedback behind the number of the link.
#[test]
fn answers_over_a_front(rt: HostRuntime) {
    let mut station = station(&rt, 4, 5);
    let mut buffer = PacketBuffer::new(rt.alloc()).expect(&rt, "no memory");
    let mut front = Kept {
        ports: Vec::new(rt.alloc()),
        octets: Vec::new(rt.alloc()),
        fails: true,
    };
    let duty = Duty {
        is_draining: false,
        is_numbered: true,
    };
    let read = arrival_in(false, 1000, DATAGRAM);
    let taken = station.answer(&mut front, &mut buffer, duty, 1000, read);
    assert!(rt; taken.sends.packet.is_some());
    assert!(rt; front.ports.as_slice() == [6001, 6002].as_slice());
    assert!(rt; front.octets.as_slice().get(40..43) == Some([0xab, 0, 4].as_slice()));
    let failed = match station.counters().get(&4) {
        Some(counts) => counts.failed_sends,
        None => 0,
    };
    assert!(rt; failed == 2);
}

// The memory of a call's counts, as docs/OPERATING.md and `rohctl plan --calls` have it.
#[test]
fn counts_are_small(rt: HostRuntime) {
    assert_eq!(rt; mem::size_of::<CallCounts>(), 120);
}

#[test]
fn takes_and_reloads(rt: HostRuntime) {
    let mut station = station(&rt, 4, 5);
    let taken = station.take(1000, arrival_in(false, 1000, DATAGRAM));
    let sends = taken.sends;
    assert!(rt; sends.ports.is_some() && sends.packet.is_some() && sends.feedback.is_some());
    assert!(rt; taken.refusal.is_none());
    let report = station
        .reload(rt.alloc(), links(&rt, 4, 6))
        .expect(&rt, "it works");
    let wanted = ReloadReport {
        added: 1,
        changed: 0,
        removed: 1,
        contexts_gone: 0,
    };
    assert!(rt; report == wanted);
    assert!(rt; station.concentrator().has_context(4, 0));
    assert!(rt;
        station
            .take(1000, arrival_in(false, 1000, &[0, 5, 1]))
            .refusal
            == Some(Refusal::NoLink)
    );
    assert!(rt; station.totals().datagrams == 2 && station.totals().unknown_link == 1);
    let unknown = Unknown {
        number: 5,
        packets: 1,
    };
    assert!(rt; station.unknown_links() == [unknown].as_slice());
    assert!(rt;
        station
            .take_known(1000, arrival_in(false, 1000, &[0, 6, 0xfd, 0x01]))
            .sends
            .refused
    );
    assert!(rt; station.reset(4, Some(0)).expect(&rt, "it works") == 1);
}

// The last 16 links that aren't there, each with its datagrams: 17 come, and then the second once more.
#[test]
fn keeps_the_last_unknown_links(rt: HostRuntime) {
    let mut station = station(&rt, 4, 5);
    for link in 10..27u8 {
        let _ = station.take(1000, arrival_in(false, 1000, &[0, link, 1]));
    }
    let _ = station.take(1000, arrival_in(false, 1000, &[0, 11, 1]));
    let unknown = station.unknown_links();
    assert!(rt; unknown.len() == 16 && unknown[0].number == 12 && unknown[0].packets == 1);
    assert!(rt; unknown[14].number == 26 && unknown[15].number == 11 && unknown[15].packets == 2);
}

// A packet under an expired CID begins a call: none while the gateway drains, and no more than the limit of the link. The
// last one is expired by its sender's moment.
#[test]
fn counts_expired_calls_as_none(rt: HostRuntime) {
    let text = format!(in rt.alloc();
        "version = 2\n[[link]]\nnumber = 4{REST}idle_ms = 1000\n"
    ).expect(&rt, "no memory");
    let links = read_links(rt.alloc(), text.as_str()).expect(&rt, "no memory");
    let concentrator = Concentrator::new(rt.alloc(), links.settings()).expect(&rt, "no memory");
    let mut station = Station::new(rt.alloc(), concentrator, links).expect(&rt, "no memory");
    let limits = LinkLimits {
        new_contexts: 1,
        feedback: 0,
        payload: None,
    };
    station.set_limits(4, limits);
    for (now, is_draining, is_refused) in [
        (1000, true, true),
        (1000, false, false),
        (1500, true, false),
        (1900, false, false),
        (2900, true, true),
        (2900, false, false),
    ] {
        let read = arrival_in(false, now, DATAGRAM);
        let taken = if is_draining {
            station.take_known(now, read)
        } else {
            station.take(now, read)
        };
        assert!(rt; taken.sends.refused == is_refused, "{now}");
    }
    let later = Timed {
        link: 4,
        moment: 9000,
        packet: &DATAGRAM[2..],
    };
    assert!(rt; station.take(2950, Some(later)).sends.refused);
    assert!(rt; station.totals().new_call == 3);
    assert!(rt;
        station
            .counters()
            .get(&4)
            .expect(&rt, "it is there")
            .limiter
            .contexts_limited
            == 1
    );
    assert!(rt; !station.take(3000, Some(later)).sends.refused);
}

#[test]
fn foresees_a_reload(rt: HostRuntime) {
    let mut station = station(&rt, 4, 5);
    let _ = station.take(1000, arrival_in(false, 1000, DATAGRAM));
    let next = links(&rt, 5, 6);
    let preview = station.preview(rt.alloc(), &next).expect(&rt, "it works");
    assert!(rt; preview.added.as_slice() == [6].as_slice());
    assert!(rt; preview.changed.is_empty());
    assert!(rt; preview.removed.len() == 1);
    assert!(rt; preview.removed[0].link == 4 && preview.removed[0].contexts == 1);
    let report = station.reload(rt.alloc(), next).expect(&rt, "it works");
    let wanted = ReloadReport {
        added: 1,
        changed: 0,
        removed: 1,
        contexts_gone: 1,
    };
    assert!(rt; report == wanted);
}

#[test]
fn replaces_as_many_links_as_there_may_be(rt: HostRuntime) {
    let before = many_links(&rt, 0);
    let concentrator = Concentrator::new(rt.alloc(), before.settings()).expect(&rt, "no memory");
    let mut station = Station::new(rt.alloc(), concentrator, before).expect(&rt, "no memory");
    let report = station
        .reload(rt.alloc(), many_links(&rt, 256))
        .expect(&rt, "it works");
    let wanted = ReloadReport {
        added: 256,
        changed: 0,
        removed: 256,
        contexts_gone: 0,
    };
    assert!(rt; report == wanted);
    assert!(rt; station.concentrator().tables().contains_key(&511));
}

/// What long answers show of a station.
fn page<'a>(
    station: &'a Station,
    has_timed: bool,
    figures: &'a GatewayFigures,
    names: &'a [LinkName<'a>],
) -> Page<'a> {
    Page {
        calls: list(station, has_timed),
        figures,
        names,
        version: "1.0.0",
    }
}

/// A long answer, whole.
fn whole(rt: &(impl AllocGlobal + Abort), page: &Page<'_>, subject: Subject) -> String {
    let mut listing = Listing::new(rt.alloc(), &page.calls, subject).expect(rt, "no memory");
    let mut text = Vec::new(rt.alloc());
    for _ in 0..1000 {
        if !listing
            .go_on(rt.alloc(), &mut text, page)
            .expect(rt, "it works")
        {
            return String::from_utf8(text).expect(rt, "it is text");
        }
    }
    panic!(rt; "it goes on for ever");
}

#[test]
fn saves_and_writes(rt: HostRuntime) {
    let mut station = station(&rt, 4, 5);
    let _ = station.take(1000, arrival_in(false, 1000, DATAGRAM));
    let mut saved = Vec::new(rt.alloc());
    station.save(2000, &mut saved).expect(&rt, "it works");
    let (concentrator, told) = restore(
        rt.alloc(),
        links(&rt, 4, 5).settings(),
        saved.as_slice(),
    ).expect(&rt, "it works");
    assert!(rt; told.moment == 2000 && concentrator.has_context(4, 0));
    let figures = GatewayFigures::default();
    let shown = page(&station, false, &figures, &[]);
    let text = whole(&rt, &shown, Subject::Contexts { link: 4 });
    let line =
        "{\"link\":4,\"cid\":0,\"profile\":\"0x0001\",\"state\":\"full\",\"accepted\":1000}\n";
    assert!(rt; text.as_str() == line);
    let (link, form) = (Some(4), Form::Json);
    let lines = whole(&rt, &shown, Subject::Calls { link, form });
    let line =
        "{\"link\":4,\"cid\":0,\"profile\":\"0x0001\",\"state\":\"full\",\"accepted\":1000,\"silent_ms\":190000,\"source\":\"10.0.0.1\",\"source_port\":5000,\"destination\":\"10.0.0.2\",\"destination_port\":5002,\"ssrc\":1,\"ssrc_text\":\"0x00000001\",\"since\":1000,\"delivered\":1,\"repaired\":0,\"lost\":0,\"late\":0,\"refused\":{},\"last_refused\":null}\n";
    assert_eq!(rt; lines.as_str(), line);
    let metrics = whole(&rt, &shown, Subject::Metrics);
    assert!(rt;
        metrics.as_str().contains("polorowan_packets_total{link=\"4\",outcome=\"delivered\"} 1\n")
    );
    assert!(rt;
        metrics
            .as_str()
            .contains("polorowan_contexts{link=\"4\",state=\"full\"} 1\n")
    );
    // The IR has 42 octets. Its packet has 40 octets of headers and one of payload.
    for line in [
        "polorowan_received_bytes_total{link=\"4\"} 42\n",
        "polorowan_compressed_bytes_total{link=\"4\"} 42\n",
        "polorowan_delivered_bytes_total{link=\"4\"} 41\n",
        "polorowan_received_bytes_total{link=\"5\"} 0\n",
    ] {
        assert!(rt; metrics.as_str().contains(line));
    }
}

#[test]
fn lists_calls_for_people(rt: HostRuntime) {
    let mut station = station(&rt, 4, 5);
    let _ = station.take(1000, arrival_in(false, 1000, DATAGRAM));
    let _ = station.take(1500, arrival_in(false, 1500, &[0, 4, 0x01]));
    let _ = station.take(2000, arrival_in(false, 2000, &[0, 5, 0x00]));
    let figures = GatewayFigures::default();
    let unknown = "  5/0         CID without a context; packets refused: 1 NoContext\n";
    for (has_timed, only, first, last, more) in [
        (
            false,
            None,
            "  Link/CID    State          Silent for     Delivered",
            "! 4/0         Full Context   3 min 10 s             1",
            unknown,
        ),
        (
            true,
            Some(4),
            "  Link/CID    State          Last at moment Delivered",
            "  4/0         Full Context   1000                   1",
            "",
        ),
    ] {
        let (link, form) = (only, Form::Text);
        let shown = page(&station, has_timed, &figures, &[]);
        let text = whole(&rt, &shown, Subject::Calls { link, form });
        let wanted = format!(in rt.alloc();
            "{first} Repaired   Lost   Late Refused  Last refusal    From                  To                    SSRC\n{last}        0      0      0       1  Check           10.0.0.1:5000         10.0.0.2:5002         0x00000001\n{more}"
        ).expect(&rt, "no memory");
        assert_eq!(rt; text.as_str(), wanted.as_str());
    }
}

#[test]
fn shows_a_page(rt: HostRuntime) {
    let mut station = station(&rt, 4, 5);
    let _ = station.take(1000, arrival_in(false, 1000, DATAGRAM));
    let _ = station.take(2000, arrival_in(false, 2000, &[0, 5, 0x00]));
    let figures = GatewayFigures {
        has_state: true,
        ..GatewayFigures::default()
    };
    let names = [LinkName {
        link: 4,
        name: "Nörd <1>",
    }];
    let shown = page(&station, false, &figures, &names);
    let page = whole(&rt, &shown, Subject::Page);
    for part in [
        "<p class=\"quiet\">Version 1.0.0, running for 3 min 11 s.</p>",
        "<tr><th scope=\"row\">4 Nörd &lt;1&gt;</th><td>1</td><td>0</td><td>0</td><td>0</td><td>1</td><td>0</td><td>0</td><td>none</td></tr>",
        "<tr><th scope=\"row\">4 Nörd &lt;1&gt;</th><td>42</td><td>41</td><td>0</td><td>0</td><td>0</td></tr>",
        "<tr><th scope=\"row\">5</th><td class=\"text\">NoContext</td>",
        "<tr><th scope=\"row\">4/0</th><td class=\"text\">0x0001</td><td class=\"text\">Full Context</td><td>3 min 10 s</td><td>1</td><td>0</td><td>0</td><td>0</td><td class=\"text\"></td></tr>",
        "<p>Not saved since the start.</p>",
    ] {
        assert!(rt; page.as_str().contains(part));
    }
    assert!(rt; !page.as_str().contains("<script"));
}
