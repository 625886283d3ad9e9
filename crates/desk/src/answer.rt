ghost use Rattle.std.specs.Prelude.{◌≡◌, ℕ, IsSome, Some};
ghost use Rattle.flow.specs.Histories.{marked};
ghost use Rattle.naming.specs.Names.{Naming};
ghost use Rattle.desk.specs.Lines.{line_text};
ghost use Rattle.desk.specs.Answering.{answered, following, line_of, behind, marks_left};

use crate::command::Command;
use crate::line::Line;
use network::Network;
use network::bounds::MOST_JUNCTIONS;
use performing::{Answer, Call, perform};
use routes::Search;

// The line that tells an answer. No command asks for a size, for a reach or for what touches.
fn line_of(answer: Answer) -> Line<'static>
    requires { IsSome (line_of answer) }
    ensures { line_of answer ≡ Some result }
{
    match answer {
        Answer::Settled(settled) => Line::Settled {
            routes: settled.routes,
            litres: settled.litres,
            finished: settled.finished,
        },
        Answer::Limited { reach, limit } => Line::Limit { reach, limit },
        Answer::Drained => Line::Drained,
        Answer::Tally(delivered) => Line::Tally(delivered),
        Answer::Bottleneck(bottleneck) => Line::Bottleneck(bottleneck.sum),
        Answer::Size(_) | Answer::Reach(_) | Answer::Touched(_) => unreachable!(),
    }
}

// Carries out a command whose record stands at the place, over any network and by any search, and gives the line that
// says so. The search comes back resting. A bottleneck that is not refused leaves its near side in the marks.
pub fn carry_out<N: Network, S: Search>(
    net: &mut N,
    search: S,
    command: Command,
    place: usize,
    marks: &mut [u8; MOST_JUNCTIONS],
) -> (S, Line<'static>)
    ensures done { (line_text result.1, N.meaning net.new)
        ≡ answered command place (N.giver net.old) (N.meaning net.old) }
    ensures giver { (j : ℕ) → N.giver net.new j ≡ N.giver net.old j }
    ensures marks { marks.new ≡ marks_left command (N.meaning net.old) marks.old }
    ensures across { (names : Naming) → behind names (marked marks.new) (N.meaning net.old).reaches result.1
        ≡ following names command (N.meaning net.old) }
{
    let (search, answer) = perform(net, search, Call::from(command), marks);
    match answer {
        Ok(answer) => (search, line_of(answer)),
        Err(refusal) => (search, Line::Refused(refusal.at(place))),
    }
}
