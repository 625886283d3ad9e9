// Reads a drawing from standard input and prints its report. All that matters is in crate `report`.
#![tactic(auto)]

use drawing::reader::MOST_BYTES;
use report::Report;
use std::io;
use std::io::{BufWriter, Read, Write};

fn main(rt: HostRuntime) -> io::Result<()> {
    let mut input = Vec::new(rt.alloc());
    // One byte more than an input may have, so that a longer one is refused. (`as`: no `From` makes a u64 of a usize.)
    rt.stdin()
        .take(MOST_BYTES as u64 + 1)
        .read_to_end(&mut input)?;
    let report = Report(input.as_slice());
    let mut out = BufWriter::new(rt.alloc(), rt.stdout())?;
    write!(out, "{report}")?;
    out.flush()
}
