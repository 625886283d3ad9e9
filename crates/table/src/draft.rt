ghost use Rattle.std.specs.Prelude.{◌<◌, ◌≤◌, length, ◌≢◌};
ghost use Rattle.table.specs.Bounds.{most_drafted, most_rows};
ghost use Rattle.table.specs.Laid.{FairRows};

use network::{Row, Size};

pub mod calls;

// A network that is still being laid, in the first rows of a lent table: as many as its size has reaches. (The rows are
// lent, and are no Vec, since the library has no heap.) Whatever the other rows hold, the draft keeps to the bounds of a
// network at all times, so that it can be commissioned at any time.
#[derive(Drop)]
pub struct Draft<'a> {
    pub(crate) rows: &'a mut [Row],
    pub(crate) size: Size,
    ghost within: { size.reaches ≤ length rows.now },
    ghost few: { size.reaches ≤ most_rows },
    ghost two: { 2 ≤ size.junctions },
    ghost many: { size.junctions ≤ most_drafted },
    ghost inside: { size.intake < size.junctions },
    ghost outside: { size.outfall < size.junctions },
    ghost differ: { size.intake ≢ size.outfall },
    ghost fair: { FairRows rows.now size.reaches size.junctions },
}
