//! The process is killed at each call of a save, the power fails then, or one call fails.

use rohc_loop::{read_state, replace_file};
use rohc_simulated::{Chances, Random, Simulated, SimulatedDisk};
use std::alloc::Global;

const PATH: &str = "state";

const NEW_PATH: &str = "state.new";

const OLD: &[u8] = b"the old state";

const NEW: &[u8] = b"the new state, which is longer";

// The moment of the saves, in milliseconds.
const DATE: u64 = 1_800_000_000_000;

// More calls than a save makes, but for writes of few octets.
const CALLS: u64 = 24;

const SEEDS: u64 = 2000;

// Nothing happens by chance.
const NONE: Chances = Chances {
    failure: 0,
    part: 0,
    jump: 0,
};

// Half of the writes accept a part.
const PARTS: Chances = Chances {
    failure: 0,
    part: 2,
    jump: 0,
};

// An outside whose disk has the old state. `None` if it could not be saved.
fn prepared(alloc: Global, seed: u64) -> Option<Simulated> {
    let disk = SimulatedDisk::new(alloc);
    let mut world = Simulated::new(disk, Random::new(seed), NONE, u64::MAX);
    replace_file(&mut world, alloc, PATH, OLD, DATE).ok()?;
    Some(world)
}

// Whether a disk has the new state, or the old one if that is enough.
fn is_whole(alloc: Global, disk: SimulatedDisk, random: Random, is_saved: bool) -> bool {
    let mut world = Simulated::new(disk, random, PARTS, u64::MAX);
    match read_state(&mut world, alloc, PATH) {
        Ok(Some(octets)) => octets.as_slice() == NEW || !is_saved && octets.as_slice() == OLD,
        _ => false,
    }
}

#[test]
fn a_state_is_always_whole(rt: HostRuntime) {
    for seed in 0..SEEDS {
        for end in 0..CALLS {
            let Some(mut world) = prepared(rt.alloc(), seed) else {
                panic!(rt; "no old state");
            };
            world.chances = PARTS;
            world.end = world.calls.saturating_add(end);
            let is_saved = replace_file(&mut world, rt.alloc(), PATH, NEW, DATE).is_ok();
            let Ok(disk) = world.disk.after_power_failure(&mut world.random) else {
                panic!(rt; "out of memory");
            };
            let random = world.random;
            assert!(rt; is_whole(rt.alloc(), disk, random, is_saved));
            assert!(rt; is_whole(rt.alloc(), world.disk, random, is_saved));
        }
    }
}

// The calls of a save without chances: create, write, date, sync, close, rename and sync of the folder. Only those of the
// date and of the close may fail in a save that succeeds.
#[test]
fn a_failed_save_leaves_no_new_file(rt: HostRuntime) {
    for call in [1, 2, 4, 6, 7] {
        let Some(mut world) = prepared(rt.alloc(), 1) else {
            panic!(rt; "no old state");
        };
        world.fails = world.calls.saturating_add(call);
        assert!(rt; replace_file(&mut world, rt.alloc(), PATH, NEW, DATE).is_err());
        assert!(rt; world.disk.octets_of(NEW_PATH).is_none());
        let wanted = if call == 7 { NEW } else { OLD };
        assert!(rt; world.disk.octets_of(PATH) == Some(wanted));
    }
}
