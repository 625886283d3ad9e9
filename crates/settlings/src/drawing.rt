// Networks whose reaches are drawn one by one.
use crate::dice::Dice;
use crate::ends::Ends;
use crate::form::{Form, Kind, Scale};
use crate::plan::Plan;
use network::Network;
use table::Table;

// How many junctions and reaches a network is given.
#[derive(Clone, Copy)]
struct Counts {
    junctions: u16,
    reaches: u16,
}

// As a scale has them.
fn draw_counts(dice: &mut Dice, scale: Scale) -> Counts {
    match scale {
        Scale::Small => Counts {
            junctions: 2 + dice.junction(11),
            reaches: dice.junction(41),
        },
        Scale::Middle => Counts {
            junctions: 20 + dice.junction(41),
            reaches: 60 + dice.junction(241),
        },
        Scale::Large => Counts {
            junctions: 256,
            reaches: 1024,
        },
    }
}

// The intake and the outfall, as a kind of network has them.
fn draw_outer(dice: &mut Dice, kind: Kind, n: u16) -> Ends {
    match kind {
        Kind::Ahead | Kind::Close => Ends::outer(n),
        _ => Ends::any(dice, n),
    }
}

// The ends of a reach, as a kind of network has them.
fn draw_reach(dice: &mut Dice, kind: Kind, n: u16, outer: Ends) -> Ends {
    let ends = match kind {
        Kind::Ahead => Ends::ahead(dice, n),
        Kind::Close => Ends::close(dice, n),
        _ => Ends::any(dice, n),
    };
    ends.or_outer(dice, outer)
}

// A limit above 0, as a kind of network has them.
fn draw_open_limit(dice: &mut Dice, kind: Kind) -> u32 {
    match kind {
        Kind::High => 1_000_000 - dice.up_to(1_000),
        Kind::Low => 1 + dice.up_to(1),
        _ => 1 + dice.up_to(19),
    }
}

// A limit, as a kind of network has them. One in eight is 0, but for the kind Close: its ways are long, and most of them
// would be closed somewhere.
fn draw_limit(dice: &mut Dice, kind: Kind) -> u32 {
    let is_closed = !matches!(kind, Kind::Close) && dice.one_in(8);
    if is_closed {
        0
    } else {
        draw_open_limit(dice, kind)
    }
}

// How many reaches of a network of a kind lie from a junction to the next, before the others are drawn: at most so many.
fn count_in_line(kind: Kind, counts: Counts) -> u16 {
    match kind {
        Kind::Close => counts.reaches.min(counts.junctions.saturating_sub(1)),
        _ => 0,
    }
}

// Draws a network of one of the kinds Any, Low, High, Ahead, Close and Carrying.
pub fn lay_drawn(plan: &mut Plan<'_>, form: Form) {
    let counts = draw_counts(&mut plan.dice, form.scale);
    let outer = draw_outer(&mut plan.dice, form.kind, counts.junctions);
    plan.shape(counts.junctions, outer.from, outer.to);
    let in_line = count_in_line(form.kind, counts);
    for v in 0..in_line {
        let limit = draw_limit(&mut plan.dice, form.kind);
        plan.lay(v, v + 1, limit);
    }
    for _ in in_line..counts.reaches {
        let ends = draw_reach(&mut plan.dice, form.kind, counts.junctions, outer);
        let limit = draw_limit(&mut plan.dice, form.kind);
        plan.lay(ends.from, ends.to, limit);
    }
}

// Lets about half of the reaches carry something.
pub fn carry_some(table: &mut Table<'_>, dice: &mut Dice) {
    for k in 0..table.size().reaches {
        if dice.one_in(2) {
            if let Ok(reach) = table.reach(k) {
                let _ = table.carry(k, dice.up_to(reach.limit));
            }
        }
    }
}
