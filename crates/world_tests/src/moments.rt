//! Tests of moments.

use rohc_loop::{Before, Moments, Reading, Step, first_moment, step_between};
use rohc_simulated::{Chances, Random, Simulated, SimulatedDisk};

/// A run goes on from the saved moment: at 5,000 from a file of 2,000 it is 3,000 later. A clock that was set back adds
/// nothing, one that was set ahead by a century adds 2^32 - 1.
#[test]
fn a_run_goes_on(rt: HostRuntime) {
    let saved = |moment, modified| {
        Some(Before {
            moment,
            modified: Some(modified),
        })
    };
    for (date, before, first) in [
        (Some(5_000), None, Some(5_000)),
        (Some(5_000), saved(100, 2_000), Some(3_100)),
        (Some(1_000), saved(100, 2_000), Some(100)),
        (Some(3_155_760_000_000), saved(100, 0), Some(4_294_967_395)),
        (None, saved(100, 2_000), Some(100)),
        (None, saved((1 << 63) - 1, 0), Some((1 << 63) - 1)),
        (Some(5_000), saved(1 << 63, 2_000), None),
    ] {
        assert!(rt; first_moment(date, before) == first);
    }
}

/// The system's clock jumps each time, and the moments pass by less than a fifth of a second each time.
#[test]
fn a_clock_that_jumps_changes_no_moment(rt: HostRuntime) {
    let jumps = Chances {
        failure: 0,
        part: 0,
        jump: 1,
    };
    let disk = SimulatedDisk::new(rt.alloc());
    let mut world = Simulated::new(disk, Random::new(1), jumps, u64::MAX);
    let Ok(mut moments) = Moments::begin(&mut world, 1_000) else {
        panic!(rt; "no clock");
    };
    let mut last = 1_000;
    for _ in 0..1000 {
        let now = moments.now(&mut world);
        assert!(rt; last <= now && now < last.saturating_add(200));
        last = now;
    }
}

/// In one second the clock shows 61 seconds more, or 59 less, or a second and a half more.
#[test]
fn a_step_is_seen(rt: HostRuntime) {
    let before = Reading {
        date: 100_000,
        moment: 7_000,
    };
    for (date, step) in [
        (161_000, Some(Step::Ahead(60_000))),
        (41_000, Some(Step::Back(60_000))),
        (101_500, None),
        (101_000, None),
    ] {
        let now = Reading {
            date,
            moment: 8_000,
        };
        assert!(rt; step_between(before, now) == step);
    }
}
