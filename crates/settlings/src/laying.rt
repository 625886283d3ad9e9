// Networks whose reaches lie by a plan, and whose limits are drawn.
use crate::dice::Dice;
use crate::ends::Ends;
use crate::form::Scale;
use crate::plan::Plan;

// Junctions in rows of one width, numbered row by row. (Saturating, here and below: no number comes near its highest.)
#[derive(Clone, Copy)]
struct Rows {
    count: u16,
    width: u16,
}

impl Rows {
    fn junctions(self) -> u16 {
        self.count.saturating_mul(self.width)
    }

    // The last junction of all.
    fn last(self) -> u16 {
        self.junctions().saturating_sub(1)
    }

    fn junction(self, row: u16, column: u16) -> u16 {
        row.saturating_mul(self.width).saturating_add(column)
    }

    // One of the junctions of a row; of the last row where the number is higher.
    fn draw_in(self, dice: &mut Dice, row: u16) -> u16 {
        let row = row.min(self.count.saturating_sub(1));
        let column = dice.junction(self.width);
        self.junction(row, column)
    }
}

// Lays reaches from each junction of a row to each of the next.
fn lay_on(plan: &mut Plan<'_>, rows: Rows, row: u16) {
    for from in 0..rows.width {
        for to in 0..rows.width {
            let tail = rows.junction(row, from);
            let head = rows.junction(row.saturating_add(1), to);
            plan.lay_between(tail, head, 30, 39);
        }
    }
}

// A chain of layers of two junctions, with reaches to the next layer, and small ones that leave one to seven layers out.
pub fn lay_chain(plan: &mut Plan<'_>, scale: Scale) {
    let rows = Rows {
        count: scale.pick(6, 30, 128),
        width: 2,
    };
    let last = rows.last();
    plan.shape(rows.junctions(), 0, last);
    plan.lay(0, 1, 100);
    plan.lay(last.saturating_sub(1), last, 100);
    for row in 1..rows.count {
        lay_on(plan, rows, row - 1);
    }
    for _ in 0..scale.pick(10, 120, 514) {
        let row = plan.dice.junction(rows.count.saturating_sub(2));
        let over = 2 + plan.dice.junction(7);
        let tail = rows.draw_in(&mut plan.dice, row);
        let head = rows.draw_in(&mut plan.dice, row.saturating_add(over));
        plan.lay_between(tail, head, 1, 3);
    }
}

// Lays a reach each way between two junctions.
fn lay_both(plan: &mut Plan<'_>, one: u16, other: u16) {
    plan.lay_between(one, other, 1, 20);
    plan.lay_between(other, one, 1, 20);
}

// A square. The intake, in a corner, feeds all of its side, and all of the other side feeds the outfall.
pub fn lay_grid(plan: &mut Plan<'_>, scale: Scale) {
    let side = scale.pick(3, 7, 16);
    let rows = Rows {
        count: side,
        width: side,
    };
    plan.shape(rows.junctions(), 0, rows.last());
    for row in 0..side {
        for column in 1..side {
            let left = rows.junction(row, column - 1);
            lay_both(plan, left, rows.junction(row, column));
            let above = rows.junction(column - 1, row);
            lay_both(plan, above, rows.junction(column, row));
        }
    }
    for row in 1..side {
        plan.lay(0, rows.junction(row, 0), 20);
        plan.lay(rows.junction(row - 1, side - 1), rows.last(), 20);
    }
}

// A left side and a right side of as many junctions, with three reaches from each on the left to the right ones near it.
pub fn lay_matching(plan: &mut Plan<'_>, scale: Scale) {
    let side = scale.pick(5, 29, 127);
    let outfall = side.saturating_mul(2).saturating_add(1);
    plan.shape(outfall.saturating_add(1), 0, outfall);
    for v in 0..side {
        let left = v + 1;
        plan.lay(0, left, 1);
        plan.lay(left.saturating_add(side), outfall, 1);
        for _ in 0..3 {
            let right = v.saturating_add(plan.dice.junction(3)) % side;
            plan.lay(left, right.saturating_add(side).saturating_add(1), 1);
        }
    }
}

// A tree of canals: each junction is fed by one of the eight before it, and has a small reach to the outfall.
pub fn lay_tree(plan: &mut Plan<'_>, scale: Scale) {
    let outfall = scale.pick(11, 59, 255);
    plan.shape(outfall.saturating_add(1), 0, outfall);
    for v in 1..outfall {
        let feeder = v - 1 - plan.dice.junction(v.min(8));
        // The more junctions come after it, the more it may be fed.
        let after = u32::from(outfall - v);
        plan.lay_between(feeder, v, 1, 2 * after);
        plan.lay_between(v, outfall, 0, 3);
    }
}

// A reach from every junction but the last to every other one.
pub fn lay_dense(plan: &mut Plan<'_>, scale: Scale) {
    let last = scale.pick(5, 16, 32);
    let ends = Ends::any(&mut plan.dice, last);
    plan.shape(last.saturating_add(1), ends.from, ends.to);
    for tail in 0..last {
        for head in 0..=last {
            if tail != head {
                plan.lay_between(tail, head, 0, 20);
            }
        }
    }
}

// A group: how far behind its first junction the ends of its reaches are. Its last junction is the next one's first. The
// shortest way leads by 1 and 2, one longer way by 3, 4 and 2, the other by 1, 5 and 6.
const GROUP: [(u16, u16); 9] = [
    (0, 1),
    (1, 2),
    (2, 7),
    (0, 3),
    (3, 4),
    (4, 2),
    (1, 5),
    (5, 6),
    (6, 7),
];

// Groups in a row, with small reaches from some junctions to later ones. Where both longer ways of a group are to be
// taken, what was sent from 1 to 2 has to go back.
pub fn lay_crossed(plan: &mut Plan<'_>, scale: Scale) {
    let count = scale.pick(1, 8, 36);
    let last = count.saturating_mul(7);
    plan.shape(last.saturating_add(1), 0, last);
    for group in 0..count {
        let first = group.saturating_mul(7);
        for (tail, head) in &GROUP {
            plan.lay_between(
                first.saturating_add(*tail),
                first.saturating_add(*head),
                4,
                8,
            );
        }
    }
    for _ in 0..count.saturating_mul(4) {
        let tail = plan.dice.junction(last);
        let head = tail.saturating_add(1 + plan.dice.junction(9)).min(last);
        plan.lay_between(tail, head, 1, 2);
    }
}
