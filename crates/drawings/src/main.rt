// Reads drawings as text, one a line: a name, a space, and the drawing's bytes in hexadecimal digits, or '-' for no
// bytes. Prints for each a line `drawing NAME` and then its report. Where a report would read differently if it were settled
// by another search, a line says so.
#![tactic(auto)]

ghost use Rattle.std.specs.Prelude.{◌<◌, IfSome};

use anyhow::Context;
use network::Row;
use report::{Report, open};
use routes::Search;
use searches::{BreadthFirst, Dd1, Dd2};
use std::alloc::{AllocError, Global};
use std::fmt::Write as FmtWrite;
use std::io;
use std::io::{BufWriter, Write};

// How many rows a table has.
const ROWS: usize = 1024;

// The value of a hexadecimal digit. (Crate hex takes capitals too, which are none here, so that a check of them would
// stand beside it.)
fn digit(b: u8) -> Option<u8>
    ensures { IfSome result (λ d. d < 16) }
{
    match b {
        b'0'..=b'9' => Some(b - b'0'),
        b'a'..=b'f' => Some(b - b'a' + 10),
        _ => None,
    }
}

// The byte that two hexadecimal digits spell.
fn byte(pair: &[u8]) -> Option<u8> {
    let [high, low] = pair else {
        return None;
    };
    Some(digit(*high)? * 16 + digit(*low)?)
}

// The bytes that hexadecimal digits spell.
fn bytes(heap: Global, digits: &str) -> anyhow::Result<Vec<u8>> {
    let mut bytes = Vec::new(heap);
    if digits != "-" {
        for pair in digits.as_bytes().chunks(2) {
            bytes.push(byte(pair).context("not two hexadecimal digits")?)?;
        }
    }
    Ok(bytes)
}

// The lines of a drawing that is settled by this search.
fn lines<S: Search + Default + Drop>(
    heap: Global,
    drawing: &[u8],
    search: S,
) -> Result<String, AllocError> {
    let mut rows = [Row::default(); ROWS];
    let mut text = String::new(heap);
    match open(drawing, &mut rows, search) {
        Ok(desk) => {
            for line in desk {
                writeln!(text, "{line}")?;
            }
        }
        Err(refusal) => writeln!(text, "{refusal}")?,
    }
    Ok(text)
}

// Whether a drawing has the same lines by each search.
fn same_lines(heap: Global, drawing: &[u8]) -> Result<bool, AllocError> {
    let by_dd1 = lines(heap, drawing, Dd1)?;
    let by_dd2 = lines(heap, drawing, Dd2)?;
    let by_breadth = lines(heap, drawing, BreadthFirst)?;
    Ok(by_dd2.as_str() == by_dd1.as_str() && by_breadth.as_str() == by_dd1.as_str())
}

// Prints what one line of the input asks for.
fn answer<W: Write>(heap: Global, line: &str, out: &mut W) -> anyhow::Result<()> {
    let (name, digits) = line.split_once(' ').context("no space in a line")?;
    let drawing = bytes(heap, digits)?;
    let report = Report(drawing.as_slice());
    write!(out, "drawing {name}\n{report}")?;
    if !same_lines(heap, drawing.as_slice())? {
        writeln!(out, "another search, another report")?;
    }
    Ok(())
}

// Prints what each line of the input asks for.
fn answer_all<W: Write>(heap: Global, input: &str, out: &mut W) -> anyhow::Result<()> {
    for line in input.lines() {
        answer(heap, line, out)?;
    }
    Ok(())
}

fn main(rt: HostRuntime) -> anyhow::Result<()> {
    let input = io::read_to_string(rt.alloc(), rt.stdin())?;
    let mut out = BufWriter::new(rt.alloc(), rt.stdout())?;
    answer_all(rt.alloc(), input.as_str(), &mut out)?;
    out.flush()?;
    Ok(())
}
