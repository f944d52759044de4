//! A replay through the program's buffer.

use super::{ANSWERS, SCRIPT, Tired, concentrator, first_answers, steady_reader, willing_writer};
use crate::examples::LINKS;
use rohc_program::replay_buffered;
use rohc_replay::{RunFault, Tally};
use std::alloc::Global;
use std::io::BufWriter;
use std::process::Abort;

/// How the inner writer fails, how many reads succeed, the result of the replay, and the number of lines whose answers
/// the inner writer then holds. The answers of six lines have 318 octets, and those of all seven 408.
type Row = (Tired, usize, Result<Tally, RunFault>, usize);

const ROWS: [Row; 3] = [
    (
        Tired::FailsOnce,
        2,
        Ok(Tally { events: 6, bad: 1 }),
        ANSWERS.len(),
    ),
    (Tired::FailsOnce, 1, Err(RunFault::Read { written: 318 }), 6),
    (Tired::Fails, 2, Err(RunFault::Write { written: 408 }), 0),
];

#[test]
fn a_flush_that_fails_is_tried_again(rt: HostRuntime) {
    for row in ROWS {
        compare_row(&rt, rt.alloc(), row);
    }
}

/// Replays the script through a buffer, and compares the result and the text of the inner writer.
fn compare_row(rt: &impl Abort, alloc: Global, row: Row) {
    let (tired, reads, wanted, lines) = row;
    let text = first_answers(alloc, lines).expect(rt, "memory");
    let mut reader = steady_reader(SCRIPT.as_bytes(), 4096);
    reader.calls_left = reads;
    let mut inner = willing_writer(alloc);
    inner.calls_left = 0;
    inner.tired = tired;
    let mut writer = BufWriter::new(alloc, inner).expect(rt, "memory");
    let told = replay_buffered(
        alloc,
        &mut concentrator(rt, alloc, LINKS),
        &mut reader,
        &mut writer,
    );
    assert_eq!(rt; told, wanted);
    assert_eq!(rt; writer.get_ref().text.as_slice(), text.as_bytes());
}
