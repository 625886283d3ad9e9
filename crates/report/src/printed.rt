ghost use Rattle.std.specs.Prelude.{Some};
ghost use Rattle.std.specs.Fmt.{WritesOnOk};
ghost use Rattle.desk.specs.Lines.{text};
ghost use Rattle.report.specs.Reported.{reported};
ghost use Rattle.desk.specs.Rest.{rest};

use crate::setup::open;
use desk::Desk;
use network::{Network, Row};
use routes::Search;
use searches::Dd1;
use std::fmt;

// How many rows the table of a report has.
const ROWS: usize = 1024;

// Prints the lines that a desk has still to give.
fn tell<N: Network + Drop, S: Search + Default + Drop, W: fmt::Write>(
    desk: Desk<'_, N, S>,
    f: &mut fmt::Formatter<W>,
) -> fmt::Result
    ensures { WritesOnOk W.Write.write_str_gives f.old result
        (text (rest N.Network.meaning N.Network.giver desk.entry)) f.new }
{
    for line in desk {
        writeln!(f, "{line}")?;
    }
    Ok(())
}

// The whole of what is printed for the drawing in these bytes, whatever they are. Settling goes by the search DD1.
#[derive(Clone, Copy)]
pub struct Report<'a>(pub &'a [u8]);

impl fmt::Display for Report<'_> {
    ghost output = { λ r. Some (text (reported 1024 r.0.now)) };

    fn fmt<W: fmt::Write>(&self, f: &mut fmt::Formatter<W>) -> fmt::Result {
        let mut rows = [Row::default(); ROWS];
        match open(self.0, &mut rows, Dd1) {
            Ok(desk) => tell(desk, f),
            Err(refusal) => writeln!(f, "{refusal}"),
        }
    }
}
