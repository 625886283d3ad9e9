// What a program in C or Rust can call: whether a drawing is accepted, and its report. A slice crosses as a pointer and then
// a length. (The report is written by crate `printing`, and not by the `Display` of crate `report`: by that a write may fail,
// and no answer stands for a report that failed.)
#![tactic(auto)]

ghost use Rattle.std.specs.Prelude.{◌≡◌, length};
ghost use Rattle.drawing.specs.Reading.{most_bytes};
ghost use Rattle.desk.specs.Lines.{text};
ghost use Rattle.report.specs.Reported.{reported};
ghost use Rattle.printing.specs.Bytes.{written, held};
ghost use Rattle.allocate_c.specs.Telling.{Checked};

pub mod refusing;

use crate::refusing::{AllocateRefusal, told};
use drawing::reader::MOST_BYTES;
use printing::{check, write_report};
use searches::{BreadthFirst, Dd1, Dd2};

// The most bytes that a drawing may have.
#[unsafe(no_mangle)]
pub extern "C" fn allocate_most_bytes() -> usize
    ensures { result ≡ most_bytes }
{
    MOST_BYTES
}

// Whether a drawing is accepted, which is that its report tells its network; then nothing is written. Else the refusal is
// set to the one that is the whole report.
#[unsafe(no_mangle)]
pub extern "C" fn allocate_check(drawing: &[u8], refusal: &mut AllocateRefusal) -> bool
    ensures { Checked (reported 1024 drawing.now) refusal.old result refusal.new }
{
    match check(drawing) {
        Ok(()) => true,
        Err(is) => {
            *refusal = told(is);
            false
        }
    }
}

// Writes the report of the drawing in these bytes over the first bytes of `out`, as many as there is room for; the others
// stay as they are. Answers how long the report is.
#[unsafe(no_mangle)]
pub extern "C" fn allocate_report(drawing: &[u8], out: &mut [u8]) -> usize
    ensures len { result ≡ held (length (text (reported 1024 drawing.now))) }
    ensures bytes { out.new ≡ written (text (reported 1024 drawing.now)) out.old }
{
    write_report(drawing, Dd1, out)
}

// The same by a search: 1 is DD2, 2 breadth-first, and any other number DD1. Nothing that it writes or answers depends on it.
#[unsafe(no_mangle)]
pub extern "C" fn allocate_report_by(search: u8, drawing: &[u8], out: &mut [u8]) -> usize
    ensures len { result ≡ held (length (text (reported 1024 drawing.now))) }
    ensures bytes { out.new ≡ written (text (reported 1024 drawing.now)) out.old }
{
    match search {
        1 => write_report(drawing, Dd2, out),
        2 => write_report(drawing, BreadthFirst, out),
        _ => write_report(drawing, Dd1, out),
    }
}
