//! Packets without what a layer below added behind them.

ghost use Rattle.std.specs.Prelude.{◌≡◌};
ghost use Rattle.rohc_concentrator.specs.Tables.{setting_at, record_at};
ghost use Rattle.rohc_station.specs.Timed.{plain_timed};
ghost use Rattle.rohc_station.specs.Taking.{trimmed_by};

use crate::counters::limiter_of;
use crate::station::Station;
use crate::timed::Timed;
use rohc_concentrator::Concentrator;

/// A packet of a link without what a layer below added behind it, if it is known how long its payload may be.
pub(crate) fn trimmed_by<'a>(
    concentrator: &Concentrator,
    payload: Option<u16>,
    arrival: Timed<'a>,
) -> Timed<'a>
    ensures { plain_timed result ≡ trimmed_by payload concentrator.now (plain_timed arrival.entry) }
{
    match payload {
        Some(payload) => Timed {
            packet: concentrator.trimmed(arrival.link, payload, arrival.packet),
            ..arrival
        },
        None => arrival,
    }
}

impl Station {
    ghost use Rattle.std.specs.Prelude.{◌≡◌};
    ghost use Rattle.rohc_station.specs.Timed.{plain_timed};
    ghost use Rattle.rohc_station.specs.Taking.{trimmed_at};

    /// A packet without what a layer below added behind it (`Concentrator::trimmed`), if the limits of its link say how long a
    /// payload may be: what `take` takes of it.
    pub fn trimmed<'a>(&self, arrival: Timed<'a>) -> Timed<'a>
        ensures { plain_timed result ≡ trimmed_at self.now (plain_timed arrival.entry) }
    {
        let limiter = limiter_of(&self.counters, arrival.link);
        trimmed_by(&self.concentrator, limiter.limits.payload, arrival)
    }
}
