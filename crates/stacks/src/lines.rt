// The lines that are printed.
use crate::out::Out;
use network::{Reach, Size};
use refusal::Refusal;
use std::fmt;
use std::fmt::Display;

// A limit or an amount, or none where none is stated.
#[derive(Clone, Copy)]
struct Stated(Option<u32>);

impl fmt::Display for Stated {
    fn fmt<W: fmt::Write>(&self, f: &mut fmt::Formatter<W>) -> fmt::Result {
        match self.0 {
            Some(x) => x.fmt(f),
            None => f.write_str("none"),
        }
    }
}

// What a call that may be refused answers.
#[derive(Clone, Copy)]
struct Answer(Result<(), Refusal>);

impl fmt::Display for Answer {
    fn fmt<W: fmt::Write>(&self, f: &mut fmt::Formatter<W>) -> fmt::Result {
        match self.0 {
            Ok(()) => f.write_str("accepted"),
            Err(refusal) => refusal.fmt(f),
        }
    }
}

// A word and a value.
pub fn write_line<D: fmt::Display + Drop>(out: &mut Out, word: &str, value: D) {
    writeln!(out, "{word} {value}");
}

// A call: its word, the number of the reach or the junction, the limit or the amount, and the answer.
pub fn write_call(
    out: &mut Out,
    word: &str,
    number: usize,
    stated: Option<u32>,
    answer: Result<(), Refusal>,
) {
    let stated = Stated(stated);
    let answer = Answer(answer);
    writeln!(out, "{word} {number} {stated}: {answer}");
}

// The size of a network.
pub fn write_size(out: &mut Out, size: Size) {
    writeln!(
        out,
        "size {} {} {} {}",
        size.junctions, size.reaches, size.intake, size.outfall
    );
}

// Reach k.
pub fn write_reach(out: &mut Out, k: usize, reach: Reach) {
    writeln!(
        out,
        "reach {k} {} {} {} {}",
        reach.tail, reach.head, reach.limit, reach.carried
    );
}
