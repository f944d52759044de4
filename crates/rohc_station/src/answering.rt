//! A datagram is taken, and what is to be sent for it goes out.

ghost use Rattle.std.specs.Prelude.{◌≡◌};
ghost use Rattle.std.specs.Option.{option_map};
ghost use Rattle.rohc_station.specs.Timed.{plain_timed};
ghost use Rattle.rohc_station.specs.Answering.{link_in, number_in};

use crate::duty::Duty;
use crate::sending::Taken;
use crate::station::Station;
use crate::timed::Timed;
use rohc_serve::{Front, PacketBuffer, send_all};

/// The link of a datagram that could be read.
fn link_in(read: Option<Timed<'_>>) -> Option<u16>
    ensures { result ≡ link_in (option_map plain_timed read.entry) }
{
    match read {
        Some(arrival) => Some(arrival.link),
        None => None,
    }
}

/// The number behind which the elements of an answer are sent, if they are to be numbered.
fn number_in(is_numbered: bool, read: Option<Timed<'_>>) -> Option<u16>
    ensures { result ≡ number_in is_numbered (option_map plain_timed read.entry) }
{
    if is_numbered { link_in(read) } else { None }
}

impl Station {
    ghost use Rattle.std.specs.Prelude.{◌≡◌, ℕ, List};
    ghost use Rattle.std.specs.Option.{option_map};
    ghost use Rattle.rohc_concentrator.specs.RunsCall.{Turn};
    ghost use Rattle.rohc_station.specs.Limits.{second_of};
    ghost use Rattle.rohc_station.specs.Timed.{plain_timed};
    ghost use Rattle.rohc_station.specs.Told.{told_of};
    ghost use Rattle.rohc_station.specs.Answering.{TakesAs, CountsFailures, AnswersRead};

    /// Takes a datagram as it was read; while the gateway drains, only if it begins no call.
    fn take_under<'a>(&mut self, duty: Duty, now: u64, read: Option<Timed<'a>>) -> Taken<'a>
        ensures { (calls : List Turn) × TakesAs duty.is_draining self.old self.new (second_of now)
            (option_map plain_timed read.entry) (told_of result) calls }
    {
        if duty.is_draining {
            self.take_known(now, read)
        } else {
            self.take(now, read)
        }
    }

    /// Counts sends that failed for a datagram of a link, if some did.
    fn count_failures(&mut self, link: Option<u16>, failed: u64)
        ensures { CountsFailures self.old self.new link failed }
    {
        if failed > 0 {
            self.add_failed_sends(link, failed);
        }
    }

    /// Takes a datagram as it was read, and sends what is to be sent for it, in its order (`rohc_serve::send_all`).
    /// Sends that failed are counted for the link. Returns what came of the datagram. `now` is the moment that it is by the
    /// gateway's own clock, in milliseconds.
    pub fn answer<'a, F: Front>(
        &mut self,
        front: &mut F,
        buffer: &mut PacketBuffer,
        duty: Duty,
        now: u64,
        read: Option<Timed<'a>>,
    ) -> Taken<'a>
        ensures { AnswersRead duty now self.old self.new (option_map plain_timed read.entry) (told_of result)
            (F.acts front.old) (F.acts front.new) }
    {
        let taken = self.take_under(duty, now, read);
        let number = number_in(duty.is_numbered, read);
        let failed = send_all(front, buffer, number, &taken.sends);
        self.count_failures(link_in(read), failed);
        taken
    }
}
