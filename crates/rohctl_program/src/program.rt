//! The program, from the words after its name to how it ends.

use crate::command::{Request, read_request};
use crate::control::{Wish, answer_of, run_control, run_import};
use crate::gateway::socket_of;
use crate::keeping::keep_from;
use crate::recording::run_record;
use crate::replaying::run_replay;
use crate::seeking_words::searched_socket;
use crate::verify::run_verify;
use rohctl_answers::{run_diff, run_totals, run_trace};
use rohctl_captures::{payloads_of, run_decompress, run_feed, run_script};
use rohctl_explain::{Explainer, run_explain};
use rohctl_ground::{Ending, Screen, octets_at};
use rohctl_links::{run_links, run_new, run_plan, run_spread};
use rohctl_report::run_report;
use rohctl_survey::{run_find, run_survey};
use std::alloc::Global;
use std::net::Net;
use std::rt::{Env, Files};
use std::time::Clock;

/// Runs the program with these words. `screen` is what the standard streams are.
pub fn run<'a, R>(rt: &R, words: &'a [String], screen: Screen) -> Ending<'a>
where
    R: Files + Input + Print + Eprint + Env + Net + Clock + AllocGlobal,
{
    match requested(rt, words, screen) {
        Ok(ending) => ending,
        Err(ending) => ending,
    }
}

/// Who explains packets, for payloads as they are given.
fn explainer_of<'a>(alloc: Global, payload: Option<&'a str>) -> Result<Explainer, Ending<'a>> {
    Ok(Explainer {
        alloc,
        payloads: payloads_of(alloc, payload)?,
    })
}

/// Does what the words ask for.
fn requested<'a, R>(rt: &R, words: &'a [String], screen: Screen) -> Result<Ending<'a>, Ending<'a>>
where
    R: Files + Input + Print + Eprint + Env + Net + Clock + AllocGlobal,
{
    let (request, screen) = read_request(rt, words, screen)?;
    match request {
        Request::Totals(asked) => run_totals(rt, &asked, screen),
        Request::Links { links, json } => run_links(rt, links.as_slice(), json),
        Request::NewLinks(count) => run_new(rt, count),
        Request::Diff(asked) => run_diff(rt, &asked, screen),
        Request::Plan(plan) => run_plan(rt, &plan),
        Request::Decompress(asked) => {
            let explainer = explainer_of(rt.alloc(), asked.payload)?;
            run_decompress(rt, &asked, &explainer, screen)
        }
        Request::Script(asked) => {
            let payload = match &asked.part {
                Some(part) => part.payload,
                None => None,
            };
            run_script(rt, &asked, &explainer_of(rt.alloc(), payload)?, screen)
        }
        Request::Feed(asked) => run_feed(rt, &asked, screen),
        Request::Explain(asked) => run_explain(rt, &asked, screen),
        Request::Report(asked) => run_report(rt, &asked, screen),
        Request::Survey(asked) => run_survey(rt, &asked, screen),
        Request::Find {
            sought,
            gateway: None,
        } => run_find(rt, &sought, None, screen),
        Request::Find {
            sought,
            gateway: Some(gateway),
        } => {
            let state = answer_of(rt, searched_socket(rt, gateway)?.as_str(), Wish::State)?;
            run_find(rt, &sought, Some(state.as_slice()), screen)
        }
        Request::Spread(spread) => run_spread(rt, spread),
        Request::Verify { list, root } => run_verify(rt, list, root),
        Request::Control { gateway, wish } => {
            run_control(rt, socket_of(rt, gateway)?.as_str(), wish, screen)
        }
        Request::Import {
            gateway,
            link,
            file,
        } => {
            let octets = octets_at(rt, file)?;
            run_import(
                rt,
                socket_of(rt, gateway)?.as_str(),
                link,
                octets.as_slice(),
            )
        }
        Request::Record { gateway, asked } => {
            run_record(rt, socket_of(rt, gateway)?.as_str(), asked)
        }
        Request::Keep { gateway, every } => {
            keep_from(rt, socket_of(rt, gateway)?.as_str(), every)
        }
        Request::Replay(asked) => run_replay(rt, asked, screen),
        Request::Trace { links, script } => run_trace(rt, links, script, screen),
    }
}
