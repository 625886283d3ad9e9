// Whether a drawing is accepted.
ghost use Rattle.std.specs.Prelude.{◌≡◌};
ghost use Rattle.report.specs.Reported.{reported};
ghost use Rattle.printing.specs.Accepting.{verdict, Decides};

use crate::whole::ROWS;
use desk::Line;
use network::Row;
use refusal::Refusal;
use report::open;
use searches::Dd1;

// The refusal that a line tells, if it tells one.
fn verdict(line: &Line<'_>) -> Result<(), Refusal>
    ensures { result ≡ verdict line.now }
{
    match line {
        Line::Refused(refusal) => Err(*refusal),
        _ => Ok(()),
    }
}

// Accepts a drawing whose report tells its network, and else answers the refusal that is the whole report.
pub fn check(drawing: &[u8]) -> Result<(), Refusal>
    ensures { Decides (reported 1024 drawing.now) result }
{
    let mut rows = [Row::default(); ROWS];
    let mut desk = open(drawing, &mut rows, Dd1)?;
    match desk.next_line() {
        Some(line) => verdict(&line),
        None => Ok(()),
    }
}
