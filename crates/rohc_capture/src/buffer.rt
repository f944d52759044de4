//! Octets that are still to be written.

ghost use Rattle.std.specs.Prelude.{◌≡◌, ◌+◌, ◌-◌, ◌≤◌, ◌++◌, length, take, drop};
ghost use Rattle.std.specs.List.{slice_range};

use std::marker::Model;

/// Octets, one behind the other, with room for `N`. Emptying it writes nothing, where an `ArrayVec` clears its cells.
#[derive(Drop)]
pub(crate) struct Buffer<const N: usize> {
    pub(crate) cells: [u8; N],
    pub(crate) used: usize,
}

impl<const N: usize> Model for Buffer<N> {
    ghost use Rattle.std.specs.Prelude.{◌≤◌, ℕ, List, take};

    ghost Value = { List ℕ };

    ghost view = { λ b. take b.used b.cells };

    ghost invariant = { λ b. b.used ≤ N };
}

/// Moves the octets from `start` to `end` to the front.
fn move_to_front(cells: &mut [u8], start: usize, end: usize)
    requires ordered { start ≤ end }
    requires within { end ≤ length cells.old }
    ensures front { take (end - start) cells.new ≡ slice_range cells.old start end }
    ensures length { length cells.new ≡ length cells.old }
{
    cells.copy_within(start..end, 0);
}

/// Puts octets behind the first `used`, and returns how many there are then.
#[inline(always)]
pub(crate) fn put_at(cells: &mut [u8], used: usize, octets: &[u8]) -> usize
    requires { used + length octets.now ≤ length cells.old }
    ensures put { take result cells.new ≡ take used cells.old ++ octets.now }
    ensures used { result ≡ used + length octets.now }
    ensures length { length cells.new ≡ length cells.old }
{
    cells[used..used + octets.len()].copy_from_slice(octets);
    used + octets.len()
}

/// The 16 octets that stand at a place. They are a value, so that the compiler knows that writing them changes nothing that
/// is still to be read.
#[inline(always)]
fn part_at(octets: &[u8], place: usize) -> [u8; 16]
    requires { place + 16 ≤ length octets.now }
    ensures { result ≡ take 16 (drop place octets.now) }
{
    let Some(part) = octets[place..place + 16].first_chunk::<16>() else {
        unreachable!();
    };
    *part
}

/// Puts the 16 octets that stand at a place of others at that place behind the first `used`.
#[inline(always)]
fn put_part(cells: &mut [u8], used: usize, octets: &[u8], place: usize)
    requires part { place + 16 ≤ length octets.now }
    requires room { used + length octets.now ≤ length cells.old }
    ensures put { take (used + place + 16) cells.new ≡ take (used + place) cells.old ++ take 16 (drop place octets.now) }
    ensures length { length cells.new ≡ length cells.old }
{
    let part = part_at(octets, place);
    let _ = put_at(cells, used + place, &part);
}

/// Where the second of three parts of 16 octets begins, of which the last begins here.
#[inline(always)]
fn middle_of(last: usize) -> usize
    requires { last ≤ 32 }
    ensures behind_first { result ≤ 16 }
    ensures before_last { result ≤ last }
    ensures last { last ≤ result + 16 }
{
    if last < 16 { last } else { 16 }
}

/// Puts 16 to 48 octets as three parts of 16, which may overlap: without a call, and with no jump by their number.
#[inline(always)]
fn put_parts(cells: &mut [u8], used: usize, octets: &[u8]) -> usize
    requires least { 16 ≤ length octets.now }
    requires most { length octets.now ≤ 48 }
    requires room { used + length octets.now ≤ length cells.old }
    ensures put { take result cells.new ≡ take used cells.old ++ octets.now }
    ensures used { result ≡ used + length octets.now }
    ensures length { length cells.new ≡ length cells.old }
{
    let last = octets.len() - 16;
    let middle = middle_of(last);
    put_part(cells, used, octets, 0);
    put_part(cells, used, octets, middle);
    put_part(cells, used, octets, last);
    used + last + 16
}

/// Puts octets as `put_at` does, in less time where there are 16 to 48.
#[inline(always)]
pub(crate) fn put_few(cells: &mut [u8], used: usize, octets: &[u8]) -> usize
    requires { used + length octets.now ≤ length cells.old }
    ensures put { take result cells.new ≡ take used cells.old ++ octets.now }
    ensures used { result ≡ used + length octets.now }
    ensures length { length cells.new ≡ length cells.old }
{
    if octets.len() >= 16 && octets.len() <= 48 {
        return put_parts(cells, used, octets);
    }
    put_at(cells, used, octets)
}

impl<const N: usize> Buffer<N> {
    ghost use Rattle.std.specs.Prelude.{◌≡◌, ◌+◌, ◌≤◌, ◌++◌, [], length, drop};

    /// No octets.
    pub(crate) fn new() -> Self
        ensures { result ≡ [] }
    {
        Buffer {
            cells: [0; N],
            used: 0,
        }
    }

    /// All octets.
    #[inline(always)]
    pub(crate) fn as_slice(&self) -> &[u8]
        ensures { result.now ≡ self.now }
    {
        &self.cells[..self.used]
    }

    /// How many octets there are.
    #[inline(always)]
    pub(crate) fn len(&self) -> usize
        ensures { result ≡ length self.now }
    {
        self.used
    }

    /// How many octets there is room for.
    #[inline(always)]
    pub(crate) fn room(&self) -> usize
        ensures { result + length self.now ≡ N }
    {
        N - self.used
    }

    /// Forgets all octets.
    pub(crate) fn clear(&mut self)
        ensures { self.new ≡ [] }
    {
        self.used = 0;
    }

    /// Forgets the first octets.
    pub(crate) fn forget(&mut self, count: usize)
        requires { count ≤ length self.old }
        ensures { self.new ≡ drop count self.old }
    {
        move_to_front(&mut self.cells, count, self.used);
        self.used -= count;
    }

    /// Appends octets.
    #[inline(always)]
    pub(crate) fn extend(&mut self, octets: &[u8])
        requires { length self.old + length octets.now ≤ N }
        ensures { self.new ≡ self.old ++ octets.now }
    {
        self.used = put_at(&mut self.cells, self.used, octets);
    }
}
