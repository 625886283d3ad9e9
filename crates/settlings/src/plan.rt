// A network that is being laid.
use crate::dice::Dice;
use network::Row;
use table::Draft;

// The draft of a network, and the dice that say what is drawn for it.
#[derive(Drop)]
pub struct Plan<'a> {
    pub draft: Draft<'a>,
    pub dice: Dice,
}

impl<'a> Plan<'a> {
    // Before any call, in these rows, whatever they hold.
    pub fn new(seed: u64, rows: &'a mut [Row]) -> Plan<'a> {
        Plan {
            draft: Draft::new(rows),
            dice: Dice::new(seed),
        }
    }

    // Sets the number of junctions, the intake and the outfall. (No call of this program is refused, here and below: one that
    // was would leave another network than tools/make_settlings.py has, and so another line.)
    pub fn shape(&mut self, n: u16, intake: u16, outfall: u16) {
        let _ = self.draft.shape(n, intake, outfall);
    }

    // Lays a reach.
    pub fn lay(&mut self, tail: u16, head: u16, limit: u32) {
        let _ = self.draft.lay(tail, head, limit);
    }

    // Lays a reach whose limit is drawn, from the least to the most.
    pub fn lay_between(&mut self, tail: u16, head: u16, least: u32, most: u32) {
        let over = self.dice.up_to(most.saturating_sub(least));
        self.lay(tail, head, least.saturating_add(over));
    }
}
