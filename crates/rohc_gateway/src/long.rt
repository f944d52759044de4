//! Long answers. Each wake makes a piece of one of them, so that no datagram waits for a list of many calls.

use crate::answers::{Kind, Reply};
use crate::connection::Progress;
use crate::gateway::Gateway;
use crate::names::write_link_info;
use rohc_concentrator::Concentrator;
use rohc_gateway_file::VERSION;
use rohc_piecewise::Saver;
use rohc_station::{Form, LinkName, Listing, Page, Request, Subject};
use std::alloc::{AllocError, Global};
use std::io;
use std::io::Write;
use std::time::Clock;

/// What a long answer shows.
#[derive(Clone, Copy)]
pub(crate) enum Topic {
    Shown(Subject),
    /// The contexts as they are saved.
    State,
}

/// What makes a long answer.
#[derive(Drop)]
enum Maker {
    Listing(Listing),
    Saver(Saver),
}

/// A long answer, as far as it is made.
#[derive(Drop)]
pub(crate) struct Long {
    kind: Kind,
    maker: Maker,
    blocks: Vec<Vec<u8>>,
}

/// What comes of a request for a long answer.
#[derive(Drop)]
enum Begun {
    Long(Long),
    Refused(Reply),
}

/// What a request shows, if its answer is long. The metrics port shows the metrics and the page, and nothing else that is long.
pub(crate) fn topic_of(request: Request, is_control: bool) -> Option<Topic> {
    let subject = match request {
        Request::Metrics => Subject::Metrics,
        Request::Page => Subject::Page,
        _ if !is_control => return None,
        Request::State => return Some(Topic::State),
        Request::Status => Subject::States,
        Request::Top => Subject::Top,
        Request::Contexts { link } => Subject::Contexts { link },
        Request::Calls { link, form } => Subject::Calls { link, form },
        _ => return None,
    };
    Some(Topic::Shown(subject))
}

/// The kind of content that shows a subject.
fn kind_of(subject: Subject) -> Kind {
    match subject {
        Subject::States => Kind::Object,
        Subject::Metrics => Kind::Metrics,
        Subject::Page => Kind::Page,
        Subject::Top => Kind::Text,
        Subject::Contexts { .. } => Kind::Lines,
        Subject::Calls { form, .. } => match form {
            Form::Json => Kind::Lines,
            Form::Text => Kind::Text,
        },
    }
}

/// The link whose contexts or calls are shown, if it isn't all.
fn link_of(topic: Topic) -> Option<u16> {
    match topic {
        Topic::Shown(Subject::Contexts { link }) => Some(link),
        Topic::Shown(Subject::Calls { link, .. }) => link,
        _ => None,
    }
}

/// Appends the next piece of the saved contexts, or looks at contexts for it. Returns whether more follow.
fn save_on(
    saver: &mut Saver,
    concentrator: &Concentrator,
    block: &mut Vec<u8>,
) -> Result<bool, AllocError> {
    let piece = saver.piece();
    let count = piece.len();
    if count == 0 {
        saver.gather(concentrator);
    } else {
        block.extend_from_slice(piece)?;
        saver.take(count);
    }
    Ok(saver.is_busy())
}

impl Gateway<'_> {
    /// The names of the links that have one.
    fn link_names(&self, alloc: Global) -> Result<Vec<LinkName<'_>>, AllocError> {
        let mut names = Vec::new(alloc);
        for note in &self.notes {
            if let Some(name) = &note.name {
                names.push(LinkName {
                    link: note.number,
                    name: name.as_str(),
                })?;
            }
        }
        Ok(names)
    }

    /// What long answers show at this moment.
    fn shown<'p>(&'p self, names: &'p [LinkName<'p>], now: u64) -> Page<'p> {
        Page {
            calls: self.call_list(now),
            figures: &self.figures,
            names,
            version: VERSION,
        }
    }

    /// What makes a long answer that begins now.
    fn maker_of(&self, alloc: Global, topic: Topic, now: u64) -> Result<(Kind, Maker), AllocError> {
        match topic {
            Topic::Shown(subject) => {
                let listing = Listing::new(alloc, &self.call_list(now), subject)?;
                Ok((kind_of(subject), Maker::Listing(listing)))
            }
            Topic::State => {
                let mut saver = Saver::new(alloc)?;
                saver.begin(alloc, self.service.station.concentrator(), now)?;
                Ok((Kind::State, Maker::Saver(saver)))
            }
        }
    }

    /// A long answer of which nothing is made, or why there is none.
    fn long_of(&self, alloc: Global, topic: Topic, now: u64) -> io::Result<Begun> {
        if let Some(link) = link_of(topic)
            && !self.has_link(link)
        {
            return Ok(Begun::Refused(Reply::no_link(alloc, link)?));
        }
        let (kind, maker) = self.maker_of(alloc, topic, now)?;
        Ok(Begun::Long(Long {
            kind,
            maker,
            blocks: Vec::new(alloc),
        }))
    }

    /// Begins the long answer that the connection at a place asks for, or refuses it.
    pub(crate) fn begin_long<R: Clock + AllocGlobal>(
        &mut self,
        rt: &R,
        place: usize,
        topic: Topic,
    ) -> Progress {
        let now = self.now(rt);
        match self.long_of(rt.alloc(), topic, now) {
            Ok(Begun::Long(long)) => match self.connections.get_mut(place) {
                Some(Some(connection)) => {
                    connection.begin_long(long);
                    Progress::Goes
                }
                _ => Progress::Ended,
            },
            Ok(Begun::Refused(reply)) => self.send_answer(rt.alloc(), place, &reply),
            Err(_) => Progress::Ended,
        }
    }

    /// The place of the next connection whose long answer isn't made, from a place on and then from the first.
    fn next_long(&self) -> Option<usize> {
        let count = self.connections.len();
        for step in 0..count {
            let place = self.turn.saturating_add(step).checked_rem(count)?;
            if let Some(Some(connection)) = self.connections.get(place)
                && connection.long.is_some()
            {
                return Some(place);
            }
        }
        None
    }

    /// Writes the end of a long answer: what the station doesn't know of.
    fn write_end<W: Write>(&self, out: &mut W, listing: &Listing) -> io::Result<()> {
        match listing.subject() {
            Subject::States => self.write_status(out, listing.scan()),
            Subject::Metrics => {
                let concentrator = self.service.station.concentrator();
                write_link_info(out, self.notes.as_slice(), concentrator)
            }
            _ => Ok(()),
        }
    }

    /// Makes the next piece of a list, the metrics or the page. Returns whether more follow.
    fn list_on(
        &self,
        alloc: Global,
        listing: &mut Listing,
        block: &mut Vec<u8>,
        now: u64,
    ) -> io::Result<bool> {
        let names = self.link_names(alloc)?;
        let page = (&*self).shown(names.as_slice(), now);
        let left = listing.go_on(alloc, block, &page)?;
        if !left {
            self.write_end(block, listing)?;
        }
        Ok(left)
    }

    /// Makes the next piece of a long answer. Returns whether more follow.
    fn make_piece(&self, alloc: Global, long: &mut Long, now: u64) -> io::Result<bool> {
        let mut block = Vec::new(alloc);
        let left = match &mut long.maker {
            Maker::Listing(listing) => self.list_on(alloc, listing, &mut block, now)?,
            Maker::Saver(saver) => {
                save_on(saver, self.service.station.concentrator(), &mut block)?
            }
        };
        if !block.is_empty() {
            long.blocks.push(block)?;
        }
        Ok(left)
    }

    /// Goes on with the long answer of the connection at a place, and begins to send it once it is whole.
    fn go_on_long(&mut self, alloc: Global, place: usize, moment: u64) -> Progress {
        let Some(Some(connection)) = self.connections.get_mut(place) else {
            return Progress::Waits;
        };
        let Some(taken) = connection.long.take() else {
            return Progress::Waits;
        };
        let mut long = taken;
        let made = self.make_piece(alloc, &mut long, moment);
        let Some(Some(connection)) = self.connections.get_mut(place) else {
            return Progress::Waits;
        };
        match made {
            Ok(true) => {
                connection.long = Some(long);
                Progress::Goes
            }
            Ok(false) => connection.answer_blocks(alloc, long.kind, long.blocks, moment),
            Err(_) => Progress::Ended,
        }
    }

    /// Writes on the answers whose readers take more. Returns whether one may take still more.
    fn write_answers(&mut self) -> bool {
        let mut left = false;
        for slot in self.connections.iter_mut() {
            let Some(connection) = slot else {
                continue;
            };
            if !connection.can_write() {
                continue;
            }
            match connection.write_rest() {
                Progress::Goes => left = true,
                Progress::Ended => *slot = None,
                _ => {}
            }
        }
        left
    }

    /// Makes a piece of one long answer, and writes on those that are made. Returns whether more can be done at once.
    pub(crate) fn go_on_answers<R: Clock + AllocGlobal>(&mut self, rt: &R, moment: u64) -> bool {
        let Some(place) = self.next_long() else {
            return self.write_answers();
        };
        self.turn = place.saturating_add(1);
        if let Progress::Ended = self.go_on_long(rt.alloc(), place, moment) {
            self.free(place);
        }
        let left = self.write_answers();
        left || self.next_long().is_some()
    }
}
