// The lines of a report, written into a room.
ghost use Rattle.std.specs.Prelude.{◌≡◌, encode_utf8_all};
ghost use Rattle.refusal.specs.Texts.{place_text};
ghost use Rattle.naming.specs.Keeping.{label_text};
ghost use Rattle.desk.specs.Lines.{line_text, refusal_line, yes_no, text};
ghost use Rattle.desk.specs.Rest.{rest};
ghost use Rattle.printing.specs.Putting.{Puts};

use crate::room::Room;
use desk::{Desk, Line};
use naming::Label;
use network::Network;
use refusal::Refusal;
use routes::Search;

// Writes the bytes of a name, each as the character with that number.
fn put_name(name: &[u8], room: &mut Room<'_>)
    ensures { Puts room.old (encode_utf8_all name.now) room.new }
{
    for byte in name {
        let mut bytes = [0u8; 4];
        room.put(char::from(*byte).encode_utf8(&mut bytes));
    }
}

// Writes how a junction is shown.
pub fn put_label(label: &Label<'_>, room: &mut Room<'_>)
    ensures { Puts room.old (label_text label.now) room.new }
{
    match label {
        Label::Name(name) => put_name(name, room),
        Label::Number(junction) => room.put_number(*junction),
    }
}

// Writes the words that tell a place, if there is one.
fn put_place(place: Option<usize>, room: &mut Room<'_>)
    ensures { Puts room.old (place_text place) room.new }
{
    if let Some(place) = place {
        room.put(" at ");
        room.put_number(place);
    }
}

// Writes a refusal, without the end of its line.
pub fn put_refusal(refusal: &Refusal, room: &mut Room<'_>)
    ensures { Puts room.old (refusal_line refusal.now) room.new }
{
    room.put("refused ");
    room.put_number(refusal.fault.number());
    put_place(refusal.place, room);
    room.put(" in ");
    room.put(refusal.part.word());
}

// The word for whether it is so.
fn yes_no(is: bool) -> &'static str
    ensures { result.now ≡ yes_no is }
{
    if is { "yes" } else { "no" }
}

// Writes a line, without its end.
pub fn put_line(line: &Line<'_>, room: &mut Room<'_>)
    ensures { Puts room.old (line_text line.now) room.new }
{
    match line {
        Line::Network { junctions, reaches } => {
            room.put("network ");
            room.put_number(*junctions);
            room.put(" ");
            room.put_number(*reaches);
        }
        Line::Limit { reach, limit } => {
            room.put("limit ");
            room.put_number(*reach);
            room.put(" ");
            room.put_number(*limit);
        }
        Line::Settled {
            routes,
            litres,
            finished,
        } => {
            room.put("settled ");
            room.put_number(*routes);
            room.put(" ");
            room.put_number(*litres);
            room.put(" ");
            room.put(yes_no(*finished));
        }
        Line::Drained => room.put("drained"),
        Line::Tally(delivered) => {
            room.put("tally ");
            room.put_signed(*delivered);
        }
        Line::Bottleneck(sum) => {
            room.put("bottleneck ");
            room.put_number(*sum);
        }
        Line::Across {
            reach,
            tail,
            head,
            limit,
        } => {
            room.put("across ");
            room.put_number(*reach);
            room.put(" ");
            put_label(tail, room);
            room.put(" ");
            put_label(head, room);
            room.put(" ");
            room.put_number(*limit);
        }
        Line::Refused(refusal) => put_refusal(refusal, room),
    }
}

// Writes the lines that a desk has still to give, each with its end.
pub fn put_lines<N: Network + Drop, S: Search + Default + Drop>(
    desk: Desk<'_, N, S>,
    room: &mut Room<'_>,
)
    ensures { Puts room.old (text (rest N.Network.meaning N.Network.giver desk.entry)) room.new }
{
    for line in desk {
        put_line(&line, room);
        room.put("\n");
    }
}
