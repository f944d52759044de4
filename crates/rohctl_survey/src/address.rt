//! The ends of a call: addresses of IPv4, with a port or any.

ghost use Rattle.std.specs.Prelude.{◌≡◌, option_map};
ghost use Rattle.rohctl_survey.specs.Address.{leads, is_between};

use rohc_header::Static;
use std::net::Ipv4Addr;

/// An end of a call.
#[derive(Clone, Copy, PartialEq, Eq)]
pub struct Endpoint {
    pub address: [u8; 4],
    /// The port; each one if there is none.
    pub port: Option<u16>,
}

impl Endpoint {
    ghost use Rattle.std.specs.Prelude.{◌≡◌};
    ghost use Rattle.rohctl_survey.specs.Address.{is_at};

    /// Whether this is the end with such an address and port.
    fn is_at(&self, address: [u8; 4], port: u16) -> bool
        ensures { result ≡ is_at self.now address port }
    {
        self.address == address
            && match self.port {
                Some(wanted) => wanted == port,
                None => true,
            }
    }
}

/// Whether a call is from one end to another.
fn leads(from: &Endpoint, to: &Endpoint, fixed: &Static) -> bool
    ensures { result ≡ leads from.now to.now fixed.now }
{
    from.is_at(fixed.source, fixed.source_port)
        && to.is_at(fixed.destination, fixed.destination_port)
}

/// Whether a call with these fields has this end, and the other one too if it is given; in either direction.
pub fn is_between(first: &Endpoint, second: Option<&Endpoint>, fixed: &Static) -> bool
    ensures { result ≡ is_between first.now (option_map (λ r. r.now) second.entry) fixed.now }
{
    match second {
        Some(second) => leads(first, second, fixed) || leads(second, first, fixed),
        None => {
            first.is_at(fixed.source, fixed.source_port)
                || first.is_at(fixed.destination, fixed.destination_port)
        }
    }
}

/// The end that a text names, as 10.0.0.1 or 10.0.0.1:5000, if it names one.
pub fn endpoint_of(text: &str) -> Option<Endpoint> {
    let (address, port) = match text.split_once(":") {
        Some((address, port)) => (address, Some(port.parse().ok()?)),
        None => (text, None),
    };
    let address: Ipv4Addr = address.parse().ok()?;
    Some(Endpoint {
        address: address.octets(),
        port,
    })
}
