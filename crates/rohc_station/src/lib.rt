//! What a gateway does, apart from its sockets: it takes datagrams, counts the answers, reads its links file
//! anew, and answers requests.
#![tactic(auto)]

pub mod ahead;
pub mod answering;
pub mod calls;
pub mod calls_text;
pub mod counters;
pub mod duty;
pub mod held;
pub mod laws;
pub mod limits;
pub mod listing;
pub mod lists;
mod marked;
pub mod metrics;
pub mod moves;
pub mod moving;
pub mod observing;
pub mod page;
mod part;
pub mod preview;
mod ranking;
pub mod record;
pub mod reload;
pub mod request;
mod room;
pub mod rows;
pub mod scan;
pub mod sending;
pub mod service;
pub mod shown;
pub mod station;
pub mod stream;
pub mod timed;
pub mod top;
mod trimming;
pub mod unknown;

pub use ahead::{Ahead, Format};
pub use calls::{CallCounts, FIRST_REFUSAL, Order, Sequence, sn_in};
pub use counters::{DatagramFault, LinkCounters, Octets, StationCounters};
pub use duty::Duty;
pub use held::Held;
pub use limits::{Limiter, LinkLimits, Second};
pub use listing::{Listing, Subject};
pub use metrics::GatewayFigures;
pub use moves::Moves;
pub use observing::{Observer, Seen, Wish};
pub use page::{LinkName, Page};
pub use preview::{Loss, Preview};
pub use record::{arrival_in, write_arrival};
pub use reload::{ReloadFault, ReloadReport};
pub use request::{
    Asked, Body, Form, Request, RequestFault, body_in, is_head, read_request, request_of,
};
pub use rows::CallList;
pub use scan::{LinkStates, MOST_LOOKED, Scan, States};
pub use sending::Taken;
pub use service::{Port, Queue, Service};
pub use shown::write_shown;
pub use station::Station;
pub use stream::Backlog;
pub use timed::{Timed, timed_datagram};
pub use unknown::{MOST_UNKNOWN, Unknown};
