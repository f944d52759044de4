//! The subcommand `verify`: whether files are as they were packed.

use hex::encode_to_slice;
use rohctl_ground::{Ending, Nothing, Printable, Reason, open_file, unprinted, unread};
use sha2::{Digest, Sha256};
use std::alloc::{AllocError, Global};
use std::fs;
use std::io::{self, BufWriter, Read, Write};
use std::rt::Files;

/// The longest list of digests, in octets.
const LONGEST_LIST: u64 = 1_048_576;

/// How many octets are read at once.
const PIECE: usize = 4096;

/// The digits of a digest.
const DIGITS: usize = 64;

/// What is found of a file.
#[derive(Clone, Copy, PartialEq, Eq)]
enum Found {
    AsPacked,
    Other,
    Unread(Reason),
}

/// What is found of all files of a list.
#[derive(Clone, Copy)]
struct Verified {
    /// How many lines the list has, without comments.
    count: u64,
    /// Whether each file is as it was packed.
    good: bool,
}

/// The text of the list.
fn list_text<'a, R: Files + AllocGlobal>(rt: &R, path: &'a str) -> Result<String, Ending<'a>> {
    let file = open_file(rt, path)?;
    let mut octets = Vec::new(rt.alloc());
    let mut limited = file.take(LONGEST_LIST + 1);
    limited
        .read_to_end(&mut octets)
        .map_err(|error| unread(path, Reason::of(&error)))?;
    if octets.len() as u64 > LONGEST_LIST {
        return Err(Ending::Read(path, Reason::TooLong(LONGEST_LIST)));
    }
    String::from_utf8(octets).map_err(|_| Ending::Read(path, Reason::NotUtf8))
}

/// The digest of all that is read, in hexadecimal digits.
fn digits_of<S: Read>(source: &mut S) -> io::Result<[u8; DIGITS]> {
    let mut hasher = Sha256::new();
    let mut piece = [0; PIECE];
    for _ in 0..u64::MAX {
        let count = source.read(&mut piece)?;
        if count == 0 {
            break;
        }
        hasher.update(piece.get(..count).unwrap_or(&[]));
    }
    let mut digits = [0; DIGITS];
    let digest = hasher.finalize();
    let _ = encode_to_slice(digest.as_slice(), &mut digits);
    Ok(digits)
}

/// A path below a folder.
fn path_below(alloc: Global, folder: &str, path: &str) -> Result<String, AllocError> {
    let mut whole = String::new(alloc);
    whole.push_str(folder)?;
    whole.push_str("/")?;
    whole.push_str(path)?;
    Ok(whole)
}

/// What is found of a file with this digest.
fn found_at<R: Files + AllocGlobal>(rt: &R, path: &str, digits: &str) -> Found {
    let mut file = match fs::open(rt, path) {
        Ok(file) => file,
        Err(error) => return Found::Unread(Reason::of(&error)),
    };
    match digits_of(&mut file) {
        Ok(found) if found.as_slice() == digits.as_bytes() => Found::AsPacked,
        Ok(_) => Found::Other,
        Err(error) => Found::Unread(Reason::of(&error)),
    }
}

/// The digest and the path of a line as `sha256sum` writes it.
fn digest_in(line: &str) -> Option<(&str, &str)> {
    let (digits, path) = line.split_once("  ")?;
    let is_digest = digits.len() == DIGITS && digits.bytes().all(|octet| octet.is_ascii_hexdigit());
    if is_digest && !path.is_empty() {
        Some((digits, path))
    } else {
        None
    }
}

/// Writes what is found of a file, unless it is as it was packed.
fn write_found<W: Write>(out: &mut W, path: &str, found: Found) -> io::Result<()> {
    let path = path.escape_default();
    match found {
        Found::AsPacked => Ok(()),
        Found::Other => writeln!(out, "{path}: it differs from the package; install it again"),
        Found::Unread(reason) => writeln!(out, "{path}: cannot read it: {reason}"),
    }
}

/// Compares the file of a line of the list, and writes what differs. Returns whether it is as it was packed.
fn verify_line<R: Files + AllocGlobal, W: Write>(
    rt: &R,
    out: &mut W,
    list: &str,
    root: &str,
    number: usize,
    line: &str,
) -> Result<bool, Ending<'static>> {
    let Some((digits, path)) = digest_in(line) else {
        return match writeln!(
            out,
            "{}:{number}: not a digest and a path; expected a line as sha256sum writes it",
            Printable(list)
        ) {
            Ok(()) => Ok(false),
            Err(error) => Err(unprinted(&error)),
        };
    };
    let whole = path_below(rt.alloc(), root, path).map_err(|_| Ending::Memory)?;
    let found = found_at(rt, whole.as_str(), digits);
    if found == Found::Unread(Reason::Memory) {
        return Err(Ending::Memory);
    }
    match write_found(out, path, found) {
        Ok(()) => Ok(found == Found::AsPacked),
        Err(error) => Err(unprinted(&error)),
    }
}

/// Compares the files of a list below a folder, and writes which aren't as they were packed.
fn verify_lines<R: Files + AllocGlobal, W: Write>(
    rt: &R,
    out: &mut W,
    list: &str,
    root: &str,
    text: &str,
) -> Result<Verified, Ending<'static>> {
    let mut verified = Verified {
        count: 0,
        good: true,
    };
    for (place, line) in text.split("\n").enumerate() {
        if line.is_empty() || line.starts_with("#") {
            continue;
        }
        let number = place.saturating_add(1);
        verified.count = verified.count.saturating_add(1);
        verified.good = verify_line(rt, out, list, root, number, line)? && verified.good;
    }
    Ok(verified)
}

/// Writes how many files are as they were packed, if all are.
fn write_end<W: Write>(out: &mut W, verified: Verified) -> io::Result<()> {
    match verified {
        Verified { good: false, .. } => {}
        Verified { count: 1, .. } => writeln!(out, "1 file is as packaged")?,
        Verified { count, .. } => writeln!(out, "{count} files are as packaged")?,
    }
    out.flush()
}

/// Compares all files of a list below a folder, and writes which aren't as they were packed.
pub(crate) fn run_verify<'a, R>(rt: &R, list: &'a str, root: &str) -> Result<Ending<'a>, Ending<'a>>
where
    R: Files + Print + AllocGlobal,
{
    let text = list_text(rt, list)?;
    let Ok(mut out) = BufWriter::new(rt.alloc(), io::writer(rt)) else {
        return Err(Ending::Memory);
    };
    let verified = verify_lines(rt, &mut out, list, root, text.as_str())?;
    if verified.count == 0 {
        return Err(Ending::Nothing(list, Nothing::NoDigest));
    }
    match write_end(&mut out, verified) {
        Err(error) => Err(unprinted(&error)),
        Ok(()) if verified.good => Ok(Ending::Good),
        Ok(()) => Ok(Ending::Findings),
    }
}
