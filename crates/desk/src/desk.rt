ghost use Rattle.std.specs.Prelude.{◌≡◌, ◌∷◌, ◌<◌, length};
ghost use Rattle.std.specs.Iterator.{YieldsFirstBy, item_count};
ghost use Rattle.flow.specs.Net.{arc_at};
ghost use Rattle.naming.specs.Keeping.{names_in};
ghost use Rattle.drawing.specs.Ahead.{ahead};
ghost use Rattle.desk.specs.declared.desk.Phase.TheVariants as phases;
ghost use Rattle.desk.specs.Lines.{line_text, network_line, across_line};
ghost use Rattle.desk.specs.Commands.{ask, asked, asked_as};
ghost use Rattle.desk.specs.Answering.{command_lines, opened_lines};
ghost use Rattle.desk.specs.Laws.{answers_in, lines_for};
ghost use Rattle.desk.specs.Rest.{rest, phase_behind};

use crate::answer::carry_out;
use crate::command::Command;
use crate::line::Line;
use drawing::Reader;
use marking::next_crossing;
use naming::Names;
use network::Network;
use network::bounds::MOST_JUNCTIONS;
use refusal::{Part, Refusal};
use routes::Search;
use std::mem;

// How far a desk has come. (A value, and no closure or type for each step: an iterator has to keep it in a field.)
#[derive(Clone, Copy)]
enum Phase {
    // Nothing was given yet.
    Opening,
    // The network was told, and this command, whose record stands at the place, is carried out next.
    Held { command: Command, place: usize },
    // A bottleneck was told, and of the reaches that cross it those below this number.
    Across { next: usize },
    // Commands are read.
    Commands,
    // All lines were given.
    Over,
}

// Answers the commands of a drawing over any network and by any search, a line a call.
#[derive(Drop)]
pub struct Desk<'a, N: Network, S> {
    reader: Reader<'a>,
    network: N,
    search: S,
    names: Names<'a>,
    // 1 for each junction that is near in the last bottleneck that was told
    marks: [u8; MOST_JUNCTIONS],
    phase: Phase,
}

// The next command and the place of its record, or nothing at the end. Records that give no command are refused. (The two
// are no struct: the place is the reader's, and is only put on a refusal.)
fn next_command(reader: &mut Reader<'_>) -> Result<Option<(Command, usize)>, Refusal>
    ensures { asked (ahead reader.old) ≡ asked_as result (asked (ahead reader.new)) }
{
    let place = reader.place();
    let Some(item) = reader.next()? else {
        return Ok(None);
    };
    let refuse = |fault| Refusal::new(fault, Part::Reader).at(place);
    let command = Command::try_from(item).map_err(refuse)?;
    Ok(Some((command, place)))
}

// The line that tells the size of a network.
fn network_line<N: Network>(net: &N) -> Line<'static>
    ensures { line_text result ≡ network_line (N.meaning net.now).junctions (length (N.meaning net.now).reaches) }
{
    let size = net.size();
    Line::Network {
        junctions: size.junctions,
        reaches: size.reaches,
    }
}

// The line that tells a reach which crosses the bottleneck.
fn across_line<'a, N: Network>(net: &N, names: &Names<'a>, number: usize) -> Line<'a>
    requires { number < length (N.meaning net.now).reaches }
    ensures { line_text result ≡ across_line (names_in names.now) number (arc_at (N.meaning net.now).reaches number) }
{
    let reach = net.reach(number).unwrap();
    Line::Across {
        reach: number,
        tail: names.label(reach.tail),
        head: names.label(reach.head),
        limit: reach.limit,
    }
}

// The phase behind a line that answers a command: the reaches that cross a bottleneck are told behind its line.
fn phase_behind(line: &Line<'_>) -> Phase
    ensures { result ≡ phase_behind line.now }
{
    match line {
        Line::Bottleneck(_) => Phase::Across { next: 0 },
        _ => Phase::Commands,
    }
}

impl<'a, N: Network, S: Search + Default + Drop> Desk<'a, N, S> {
    // A desk for the commands that the reader has ahead of it. Junctions that have a name are shown by it.
    pub fn new(reader: Reader<'a>, network: N, search: S, names: Names<'a>) -> Desk<'a, N, S>
        ensures lines { rest N.meaning N.giver result
            ≡ opened_lines (names_in names.entry) (asked (ahead reader.entry)) (N.giver network) (N.meaning network) }
        ensures count { answers_in (rest N.meaning N.giver result) ≡ lines_for (asked (ahead reader.entry)) }
    {
        Desk {
            reader,
            network,
            search,
            names,
            marks: [0; MOST_JUNCTIONS],
            phase: Phase::Opening,
        }
    }

    // The first line.
    fn open(&mut self) -> Line<'a>
        requires { self.old.phase ≡ phases.Opening }
        ensures { rest N.meaning N.giver self.old ≡ line_text result ∷ rest N.meaning N.giver self.new }
    {
        match next_command(&mut self.reader) {
            Ok(next) => {
                self.phase = match next {
                    Some((command, place)) => Phase::Held { command, place },
                    None => Phase::Over,
                };
                network_line(&self.network)
            }
            Err(refusal) => {
                self.phase = Phase::Over;
                Line::Refused(refusal)
            }
        }
    }

    // The line of a command whose record stands at the place. The search is moved through the call.
    fn answer(&mut self, command: Command, place: usize) -> Line<'a>
        ensures { command_lines (names_in self.old.names) (ask command place (asked (ahead self.old.reader)))
            (N.giver self.old.network) (N.meaning self.old.network) ≡ line_text result ∷ rest N.meaning N.giver self.new }
    {
        let (search, line) = carry_out(
            &mut self.network,
            mem::take(&mut self.search),
            command,
            place,
            &mut self.marks,
        );
        self.search = search;
        self.phase = phase_behind(&line);
        line
    }

    // The line of the next command, once the network is told.
    fn command(&mut self) -> Option<Line<'a>>
        requires { self.old.phase ≡ phases.Commands }
        ensures { YieldsFirstBy line_text (rest N.meaning N.giver) self.old result self.new }
    {
        match next_command(&mut self.reader) {
            Ok(Some((command, place))) => Some(self.answer(command, place)),
            Ok(None) => {
                self.phase = Phase::Over;
                None
            }
            Err(refusal) => {
                self.phase = Phase::Over;
                Some(Line::Refused(refusal))
            }
        }
    }

    // The line of the next reach that crosses the bottleneck, from this number on; or else that of the next command.
    fn across(&mut self, next: usize) -> Option<Line<'a>>
        requires { self.old.phase ≡ phases.Across next }
        ensures { YieldsFirstBy line_text (rest N.meaning N.giver) self.old result self.new }
    {
        let Some(number) = next_crossing(&self.network, &self.marks, next) else {
            self.phase = Phase::Commands;
            return self.command();
        };
        self.phase = Phase::Across { next: number + 1 };
        Some(across_line(&self.network, &self.names, number))
    }

    // The next line, or nothing where all lines were given.
    pub fn next_line(&mut self) -> Option<Line<'a>>
        ensures { YieldsFirstBy line_text (rest N.meaning N.giver) self.old result self.new }
    {
        match self.phase {
            Phase::Opening => Some(self.open()),
            Phase::Held { command, place } => Some(self.answer(command, place)),
            Phase::Across { next } => self.across(next),
            Phase::Commands => self.command(),
            Phase::Over => None,
        }
    }
}

// The lines, one after the other, up to the last. An iterator can be dropped, and so its network has to be one that can;
// `next_line` asks no such thing.
impl<'a, N: Network + Drop, S: Search + Default + Drop> Iterator for Desk<'a, N, S> {
    type Item = Line<'a>;

    ghost next_gives = { YieldsFirstBy line_text (rest N.meaning N.giver) };

    ghost remaining = { item_count (rest N.meaning N.giver) };

    fn next(&mut self) -> Option<Line<'a>> {
        self.next_line()
    }
}
