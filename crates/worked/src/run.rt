//! One run of an example, on a concentrator of its own.

use crate::lines::{arrival_of, push_line};
use crate::pieces::Pieces;
use crate::text::bad_text;
use crate::{datagrams, settings};
use rohc_concentrator::Concentrator;
use rohc_links::Links;
use rohc_replay::{Tally, replay};
use std::alloc::Global;
use std::io::{self, Write};

/// A run of an example.
#[derive(Drop)]
pub(crate) struct Run<'a> {
    alloc: Global,
    links: &'a Links,
    hostile: &'a str,
    concentrator: Concentrator,
    answers: Vec<u8>,
    tally: Tally,
}

impl<'a> Run<'a> {
    /// A run with these links and hostile lines, without contexts.
    pub(crate) fn new(alloc: Global, links: &'a Links, hostile: &'a str) -> io::Result<Self> {
        let concentrator = Concentrator::new(alloc, links.settings()).map_err(|_| bad_text())?;
        Ok(Run {
            alloc,
            links,
            hostile,
            concentrator,
            answers: Vec::new(alloc),
            tally: Tally { events: 0, bad: 0 },
        })
    }

    /// The answers that were written.
    pub(crate) fn into_answers(self) -> Vec<u8> {
        self.answers
    }

    /// Runs the script of an example's lines in pieces of this size, and answers each question where it stands. Then writes
    /// the tally of the whole script.
    pub(crate) fn answer_lines(&mut self, lines: &str, size: usize) -> io::Result<()> {
        let mut script = String::new(self.alloc);
        for line in lines.lines() {
            if let Some(line) = line.strip_prefix("> ") {
                push_line(&mut script, line)?;
            } else {
                self.replay(script.as_str(), size)?;
                script.clear();
                self.answer(line.strip_prefix("? ").ok_or(bad_text())?)?;
            }
        }
        self.replay(script.as_str(), size)?;
        let Tally { events, bad } = self.tally;
        writeln!(self.answers, "events {events} bad {bad}")
    }

    /// Runs a script in pieces of this size.
    fn replay(&mut self, script: &str, size: usize) -> io::Result<()> {
        let mut reader = Pieces {
            rest: script.as_bytes(),
            size,
        };
        let told = replay(
            self.alloc,
            &mut self.concentrator,
            &mut reader,
            &mut self.answers,
        );
        let tally = told.map_err(|_| bad_text())?;
        self.tally = Tally {
            events: self.tally.events.saturating_add(tally.events),
            bad: self.tally.bad.saturating_add(tally.bad),
        };
        Ok(())
    }

    /// Writes a question and its answer.
    fn answer(&mut self, question: &str) -> io::Result<()> {
        writeln!(self.answers, "? {question}")?;
        let (name, words) = question.split_once(' ').ok_or(bad_text())?;
        match name {
            "hostile_lines" => self.run_hostile_lines(words),
            "has_context" => self.write_has_context(words),
            "contexts" => self.write_contexts(words),
            "answer_datagram" => {
                datagrams::answer(self.alloc, self.links, words, &mut self.answers)
            }
            "serve" => datagrams::serve(self.alloc, self.links, words, &mut self.answers),
            "Concentrator::new" => {
                settings::write_setup_fault(self.alloc, self.links, words, &mut self.answers)
            }
            "read_links" => settings::write_links_fault(self.alloc, words, &mut self.answers),
            _ => Err(bad_text()),
        }
    }

    /// Runs the hostile lines so many times. Their answers aren't kept.
    fn run_hostile_lines(&mut self, times: &str) -> io::Result<()> {
        let times: u32 = times.parse().map_err(|_| bad_text())?;
        let mut script = String::new(self.alloc);
        for _ in 0..times {
            script.push_str(self.hostile)?;
        }
        let mut reader = script.as_bytes();
        let mut answers = Vec::new(self.alloc);
        let told = replay(
            self.alloc,
            &mut self.concentrator,
            &mut reader,
            &mut answers,
        );
        told.map_err(|_| bad_text())?;
        Ok(())
    }

    /// Writes whether a CID of a link has a context.
    fn write_has_context(&mut self, words: &str) -> io::Result<()> {
        let (link, cid) = words.split_once(' ').ok_or(bad_text())?;
        let (Ok(link), Ok(cid)) = (link.parse(), cid.parse()) else {
            return Err(bad_text());
        };
        let is_there = self.concentrator.has_context(link, cid);
        writeln!(self.answers, "{is_there}")
    }

    /// Writes the CIDs of a link's contexts, in their order.
    fn write_contexts(&mut self, link: &str) -> io::Result<()> {
        let link: u16 = link.parse().map_err(|_| bad_text())?;
        let records = self.concentrator.tables().get(&link).ok_or(bad_text())?;
        for cid in records.contexts.keys() {
            writeln!(self.answers, "{cid}")?;
        }
        Ok(())
    }

    /// Lets each packet of an example's lines arrive, cut before each of its octets. Then resets each link.
    pub(crate) fn cut_lines(&mut self, lines: &str) -> io::Result<()> {
        for line in lines.lines() {
            if let Some(line) = line.strip_prefix("> ") {
                self.arrive_cut(line)?;
            }
        }
        for setting in self.links.settings() {
            let _ = self.concentrator.reset(setting.link);
        }
        Ok(())
    }

    /// Lets the packet of a line arrive, cut before each of its octets. Any other line does nothing.
    fn arrive_cut(&mut self, line: &str) -> io::Result<()> {
        let mut text = String::new(self.alloc);
        push_line(&mut text, line)?;
        let Some((link, moment, digits)) = arrival_of(text.as_str().trim_end()) else {
            return Ok(());
        };
        let Ok(octets) = hex::decode(self.alloc, digits) else {
            return Ok(());
        };
        for size in 0..octets.len() {
            let _ = self.concentrator.arrive(link, moment, &octets[..size]);
        }
        Ok(())
    }
}
