//! Places on the time line of a call.

ghost use Rattle.std.specs.Prelude.{◌≡◌, ◌<◌, ◌≤◌, ◌+◌, ◌-◌, ◌*◌, ◌/◌, ◌^◌, min};
ghost use Rattle.rohc_report.specs.Axis.{cell_of};

/// How many cells a time line has.
pub const CELLS: usize = 240;

/// The width of a cell in the picture.
pub(crate) const CELL_WIDTH: usize = 3;

/// The width of a picture.
pub(crate) const WIDTH: usize = 720;

/// The time of a call, from its first packet to its last.
#[derive(Clone, Copy, PartialEq, Eq)]
pub struct Axis {
    /// The moment of the first packet.
    pub first: u64,
    /// The moment of the last packet.
    pub last: u64,
}

impl Axis {
    /// The cell of a moment.
    pub fn cell(self, moment: u64) -> usize
        ensures exact { result ≡ cell_of self.first self.last CELLS moment }
        ensures within { result < CELLS }
    {
        let span = self.last.saturating_sub(self.first);
        if span == 0 {
            return 0;
        }
        let passed = moment.saturating_sub(self.first).min(span);
        cell_at(passed, span)
    }
}

/// The cell of a time that has passed since the first moment.
fn cell_at(passed: u64, span: u64) -> usize
    requires some { 0 < span }
    requires within { passed ≤ span }
    ensures exact { result ≡ min (passed * (CELLS - 1)) (2 ^ 64 - 1) / span }
    ensures below { result < CELLS }
{
    (passed.saturating_mul(CELLS as u64 - 1) / span) as usize
}

/// Where a cell begins in the picture.
pub(crate) fn x_of(cell: usize) -> usize
    requires { cell < CELLS }
    ensures exact { result ≡ cell * CELL_WIDTH }
    ensures within { result + CELL_WIDTH ≤ WIDTH }
{
    cell * CELL_WIDTH
}

/// How wide the place is where a packet is clicked.
pub(crate) const HIT_WIDTH: usize = 9;

/// Where the place begins at which a packet in this cell is clicked. It holds the cell.
pub(crate) fn hit_of(cell: usize) -> usize
    requires { cell < CELLS }
    ensures begins { result ≤ cell * CELL_WIDTH }
    ensures holds { cell * CELL_WIDTH + CELL_WIDTH ≤ result + HIT_WIDTH }
    ensures within { result + HIT_WIDTH ≤ WIDTH }
{
    x_of(cell).saturating_sub(CELL_WIDTH).min(WIDTH - HIT_WIDTH)
}

/// How wide so many cells are from this one on, up to the end of the picture.
pub(crate) fn width_of(cell: usize, count: usize) -> usize
    requires { cell < CELLS }
    ensures exact { cell + count ≤ CELLS → result ≡ count * CELL_WIDTH }
    ensures within { cell * CELL_WIDTH + result ≤ WIDTH }
{
    count.min(CELLS - cell) * CELL_WIDTH
}
