// Four layers over a drawn table.
use crate::dice::Dice;
use crate::drawn::{Session, draw_call, draw_layer, draw_table};
use crate::lines::write_line;
use crate::out::Out;
use crate::showing::{show_network, show_reaches};
use calls::tally;
use chambers::Chambers;
use gathering::Gathering;
use network::{Network, Row};

// The seed of the dice of stack 0.
const SEED: u64 = 3000;

// Fewer chambers than this are drawn for a layer, and fewer sources and sinks, before the one that comes while a reach
// may carry.
const MOST_CHAMBERS: usize = 4;

const MOST_FEEDERS: usize = 5;

// How many calls are made on a whole stack.
const CALLS: usize = 6;

// Prints what a network is, makes calls, and prints what it then carries and delivers.
fn show_in_use<N: Network>(session: &mut Session<'_>, net: &mut N) {
    show_network(session.out, net);
    for _ in 0..CALLS {
        draw_call(session, net);
    }
    show_reaches(session.out, net);
    write_line(session.out, "tally", tally(net));
}

// Puts four layers over a network, and uses the whole.
fn show_layers<N: Network + Drop>(session: &mut Session<'_>, net: N) {
    let net: Chambers<N> = draw_layer(session, net, MOST_CHAMBERS);
    let net: Gathering<Chambers<N>> = draw_layer(session, net, MOST_FEEDERS);
    let net: Chambers<Gathering<Chambers<N>>> = draw_layer(session, net, MOST_CHAMBERS);
    let mut net: Gathering<Chambers<Gathering<Chambers<N>>>> = draw_layer(
        session,
        net,
        MOST_FEEDERS,
    );
    show_in_use(session, &mut net);
}

// Draws the stack of a number, and prints it.
pub fn show_stack(out: &mut Out, number: u32) {
    write_line(out, "stack", number);
    let mut session = Session {
        out,
        dice: Dice::new(SEED + u64::from(number)),
    };
    let mut rows = [Row::default(); 8];
    let table = draw_table(&mut session.dice, &mut rows);
    show_layers(&mut session, table);
}
