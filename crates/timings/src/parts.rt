//! Times the 8-bit check, and the rebuilding of headers with their 3-bit check. The script `bench/parts` compares the
//! times with those of the same work in plain Rust.
//!
//! The results are written to standard output, the nanoseconds to standard error.

ghost use Rattle.std.specs.Prelude.{◌<◌};

use rohc_checks::crc8;
use rohc_header::{Dynamic, Header, Static};
use std::io;
use std::rt::Clock;
use std::time::Instant;

/// How many turns there are if the command line gives no number.
pub(crate) const TURNS: u32 = 1000;

/// The text that each turn checks.
const TEXT: [u8; 64] = [0x5a; 64];

/// The 8-bit check of a text, computed once each turn.
#[inline(never)]
fn check_texts(turns: u32, text: &[u8]) -> u8 {
    let mut register = 0xff;
    for _ in 0..turns {
        register = crc8(register, text);
    }
    register
}

/// The 3-bit check of a header that is built from its fields, from this register.
#[inline(never)]
fn build_and_check(fixed: &Static, moving: &Dynamic, payload_len: usize, register: u8) -> u8
    requires { moving.now.payload_type < 128 }
{
    match Header::build(fixed, moving, payload_len) {
        Some(header) => header.check3_from(register),
        None => register,
    }
}

/// The 3-bit checks of the headers of a call. Each starts from the result of the one before.
fn check_headers(turns: u32) -> u8 {
    let fixed = Static {
        source: [10, 0, 0, 1],
        destination: [10, 0, 0, 2],
        source_port: 5000,
        destination_port: 5002,
        ssrc: 1,
    };
    let mut register = 0x07;
    let mut sn = 0u16;
    let mut ts = 0u32;
    for _ in 0..turns {
        sn = sn.wrapping_add(1);
        ts = ts.wrapping_add(160);
        let moving = Dynamic {
            tos: 0,
            ttl: 64,
            id: sn,
            df: false,
            rnd: false,
            nbo: true,
            udp_sum: 0,
            padding: false,
            extension: false,
            marker: false,
            payload_type: 0,
            sn,
            ts,
            stride: Some(160),
        };
        register = build_and_check(&fixed, &moving, 33, register);
    }
    register
}

/// Times so many turns of both.
pub(crate) fn time<R: Print + Eprint + Clock + AllocGlobal>(rt: &R, turns: u32) -> io::Result<()> {
    let start = Instant::now(rt)?;
    let register = check_texts(turns, &TEXT);
    let nanos = start.elapsed(rt)?.as_nanos();
    println!(rt; "crc8 {register:02x}")?;
    eprintln!(rt; "crc8 {nanos}")?;

    let start = Instant::now(rt)?;
    let register = check_headers(turns);
    let nanos = start.elapsed(rt)?.as_nanos();
    println!(rt; "headers {register:x}")?;
    eprintln!(rt; "headers {nanos}")?;
    Ok(())
}
