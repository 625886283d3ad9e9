// The whole report of a drawing, written into bytes that the caller lends.
ghost use Rattle.std.specs.Prelude.{◌≡◌, length};
ghost use Rattle.desk.specs.Lines.{text};
ghost use Rattle.report.specs.Reported.{reported};
ghost use Rattle.printing.specs.Bytes.{written, held};

use crate::lines::{put_lines, put_refusal};
use crate::room::Room;
use network::Row;
use report::open;
use routes::Search;

// How many rows the table of a report has.
pub const ROWS: usize = 1024;

// Writes the report of the drawing in these bytes, whatever they are, over the first bytes of `out`, as many as there is
// room for; the others stay as they are. Answers how long the report is. Settling goes by this search, on which neither
// depends.
pub fn write_report<S: Search + Default + Drop>(drawing: &[u8], search: S, out: &mut [u8]) -> usize
    ensures len { result ≡ held (length (text (reported 1024 drawing.now))) }
    ensures bytes { out.new ≡ written (text (reported 1024 drawing.now)) out.old }
{
    let mut rows = [Row::default(); ROWS];
    let mut room = Room::new(out);
    match open(drawing, &mut rows, search) {
        Ok(desk) => put_lines(desk, &mut room),
        Err(refusal) => {
            put_refusal(&refusal, &mut room);
            room.put("\n");
        }
    }
    room.len()
}
