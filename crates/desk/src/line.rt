ghost use Rattle.std.specs.Prelude.{Some};
ghost use Rattle.desk.specs.Lines.{line_text};

use naming::Label;
use refusal::Refusal;
use std::fmt;

// A line that the program prints. Its `Display` is the text of the line, without its end.
#[derive(Clone, Copy)]
pub enum Line<'a> {
    // How many junctions and reaches the network has.
    Network {
        junctions: u16,
        reaches: usize,
    },
    // The limit of a reach was set.
    Limit {
        reach: usize,
        limit: u32,
    },
    // Routes were pushed, and so many litres with them; whether none is left.
    Settled {
        routes: u32,
        litres: u64,
        finished: bool,
    },
    // All was drained.
    Drained,
    // What the network delivers.
    Tally(i64),
    // The sum of the limits of the reaches that cross the bottleneck.
    Bottleneck(u64),
    // One reach that crosses the bottleneck, and its ends.
    Across {
        reach: usize,
        tail: Label<'a>,
        head: Label<'a>,
        limit: u32,
    },
    // The drawing, or one of its commands, was refused.
    Refused(Refusal),
}

impl fmt::Display for Line<'_> {
    ghost output = { λ l. Some (line_text l) };

    fn fmt<W: fmt::Write>(&self, f: &mut fmt::Formatter<W>) -> fmt::Result {
        match self {
            Line::Network { junctions, reaches } => write!(f, "network {junctions} {reaches}"),
            Line::Limit { reach, limit } => write!(f, "limit {reach} {limit}"),
            Line::Settled {
                routes,
                litres,
                finished,
            } => {
                let word = if *finished { "yes" } else { "no" };
                write!(f, "settled {routes} {litres} {word}")
            }
            Line::Drained => f.write_str("drained"),
            Line::Tally(delivered) => write!(f, "tally {delivered}"),
            Line::Bottleneck(sum) => write!(f, "bottleneck {sum}"),
            Line::Across {
                reach,
                tail,
                head,
                limit,
            } => write!(f, "across {reach} {tail} {head} {limit}"),
            Line::Refused(refusal) => write!(f, "{refusal}"),
        }
    }
}
