//! What a context would take next, before a packet arrives: its age, the SN that is expected, and how far it is from
//! its next fall (docs/FORMATS.md, *States*).

use crate::held::sn_in;
use crate::packet::{Explained, counts_after};
use rohc_context::{ContextState, Mode, Settings, StateView, View, Window};

/// How many of the last `n` outcomes are failures.
pub(crate) fn failures(window: &Window, n: u8) -> u32 {
    failures_in(window.word, n)
}

/// How many of the last `n` outcomes of a window's word are failures.
fn failures_in(word: u64, n: u8) -> u32 {
    let newest = if n >= 64 { word } else { word % (1u64 << n) };
    newest.count_ones()
}

/// How many failures in a row fill the window for (`k`, `n`), where the oldest outcomes fall out of it.
fn failures_to_fill(window: &Window, k: u8, n: u8) -> u32 {
    let mut word = window.word;
    let mut count = 0u32;
    for _ in 0..k {
        word = word.wrapping_mul(2) | 1;
        count = count.saturating_add(1);
        if failures_in(word, n) >= u32::from(k) {
            break;
        }
    }
    count
}

/// What a context is about to do.
#[derive(Clone, Copy, PartialEq, Eq)]
pub(crate) enum Ahead {
    /// It counts as none: its last accepted packet is too long ago.
    Expired,
    /// It has no failures to count: profile 0x0000.
    Nothing,
    /// So many failed checks in a row lead to this state.
    Falls { to: ContextState, after: u32 },
    /// A packet that is no IR makes a STATIC-NACK due after so many milliseconds.
    StaticNack { wait: u64 },
    /// Nothing is ever sent: the mode is U.
    Silent,
}

/// What is told of a context with respect to the time at which a packet arrives.
#[derive(Clone, Copy, PartialEq, Eq)]
pub(crate) struct Expected {
    /// The milliseconds since the last accepted arrival.
    pub(crate) age: u64,
    /// The SN that follows the reference's.
    pub(crate) sn: Option<u16>,
    pub(crate) ahead: Ahead,
}

/// What lies ahead of a context that counts.
fn ahead_of(view: &View, settings: &Settings, moment: u64) -> Ahead {
    match &view.state {
        StateView::Plain => Ahead::Nothing,
        StateView::Full { window, .. } => Ahead::Falls {
            to: ContextState::StaticContext,
            after: failures_to_fill(window, settings.k1, settings.n1),
        },
        StateView::Static { windows, .. } => Ahead::Falls {
            to: ContextState::NoContext,
            after: failures_to_fill(&windows.1, settings.k2, settings.n2),
        },
        StateView::NoContext { .. } if settings.mode == Mode::U => Ahead::Silent,
        StateView::NoContext { nacked } => {
            let passed = moment.saturating_sub(*nacked);
            Ahead::StaticNack {
                wait: u64::from(settings.static_nack_ms).saturating_sub(passed),
            }
        }
    }
}

/// What is expected of the context before a packet, if there is one.
pub(crate) fn expected_of(explained: &Explained) -> Option<Expected> {
    let (Some(view), Some(settings)) = (&explained.before, &explained.settings) else {
        return None;
    };
    let age = explained.moment.saturating_sub(view.accepted);
    if !counts_after(settings, age) {
        return Some(Expected {
            age,
            sn: None,
            ahead: Ahead::Expired,
        });
    }
    Some(Expected {
        age,
        sn: sn_in(view).map(|sn| sn.wrapping_add(1)),
        ahead: ahead_of(view, settings, explained.moment),
    })
}
