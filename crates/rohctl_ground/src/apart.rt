//! Outputs that are no input, and not one file: they are refused before anything is written.

ghost use Rattle.std.specs.Prelude.{◌≡◌, All, Contains, IfErr, IfSome, IsOk, None};
ghost use Rattle.rohctl_ground.specs.Ending.{status_of};

use crate::ending::{Ending, Misuse, STREAM};
use std::fs;
use std::os::unix::fs::MetadataExt;
use std::rt::Files;

/// The file to which a path leads, by its device and its number there.
#[derive(Clone, Copy, PartialEq, Eq)]
struct Identity {
    device: u64,
    number: u64,
}

/// The regular file of a path, if there is one.
fn identity_of<R: Files>(rt: &R, path: &str) -> Option<Identity> {
    let data = fs::metadata(rt, path).ok()?;
    if data.is_file() {
        Some(Identity {
            device: data.dev(),
            number: data.ino(),
        })
    } else {
        None
    }
}

/// The regular file of an input, if it is one; standard input may be one too.
fn input_identity<R: Files>(rt: &R, path: &str) -> Option<Identity> {
    identity_of(rt, if path == STREAM { "/dev/stdin" } else { path })
}

/// The regular file of an output, if it is one; standard output may be one too.
fn output_identity<R: Files>(rt: &R, path: &str) -> Option<Identity> {
    identity_of(rt, if path == STREAM { "/dev/stdout" } else { path })
}

/// Whether two outputs are one file, which is there, or one name of no file.
fn are_one<R: Files>(rt: &R, first: &str, second: &str) -> bool {
    match (output_identity(rt, first), output_identity(rt, second)) {
        (Some(first), Some(second)) => first == second,
        (None, None) => first == second && (first == STREAM || fs::metadata(rt, first).is_err()),
        _ => false,
    }
}

/// The input that this output would overwrite, if it is one of them.
pub fn overwritten<'a, R: Files>(rt: &R, inputs: &[&'a str], output: &str) -> Option<&'a str>
    ensures { IfSome result (λ input. Contains inputs.now input) }
{
    let identity = output_identity(rt, output)?;
    for input in inputs {
        if input_identity(rt, input) == Some(identity) {
            return Some(input);
        }
    }
    None
}

/// Refuses an output that is one of the inputs, and two outputs that are one file.
pub fn keep_apart<'a, R: Files>(
    rt: &R,
    inputs: &[&'a str],
    outputs: &[Option<&'a str>],
) -> Result<(), Ending<'a>>
    ensures nothing { All (λ output. output ≡ None) outputs.now → IsOk result }
    ensures misuse { IfErr result (λ ending. status_of ending ≡ 2) }
{
    for (place, output) in outputs.iter().enumerate() {
        let Some(output) = output else {
            continue;
        };
        if let Some(input) = overwritten(rt, inputs, output) {
            return Err(Ending::Misuse(Misuse::Overwrites { output, input }));
        }
        for earlier in outputs.iter().take(place) {
            if let Some(earlier) = earlier
                && are_one(rt, earlier, output)
            {
                return Err(Ending::Misuse(Misuse::OneOutput(output)));
            }
        }
    }
    Ok(())
}
