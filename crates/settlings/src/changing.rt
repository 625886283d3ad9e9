// Changes of single reaches, between two settlings.
use crate::dice::Dice;
use crate::form::Kind;
use network::{Change, Network};

// Which reach is changed, and how.
#[derive(Clone, Copy)]
pub struct ReachChange {
    pub k: usize,
    pub change: Change,
}

// Draws a change of one reach of a network: of its limit, or, for the kind Carrying, of what it carries. (A network of
// another kind began dry, so that it carries amounts in balance, and goes on so.) The network may refuse the change: there
// may be no such reach, or the limit be below what is carried, or the amount above the limit.
pub fn draw_change<N: Network>(dice: &mut Dice, kind: Kind, net: &N) -> ReachChange {
    let k = dice.up_to(net.size().reaches as u32) as usize;
    let (limit, carried) = match net.reach(k) {
        Ok(reach) => (reach.limit, reach.carried),
        Err(_) => (0, 0),
    };
    let change = match dice.up_to(3) {
        0 => Change::Limit(dice.up_to(carried)),
        1 => Change::Limit(limit.saturating_add(dice.up_to(20))),
        2 if matches!(kind, Kind::Carrying) => {
            Change::Carry(dice.up_to(limit.saturating_add(1)))
        }
        _ => Change::Limit(carried.saturating_add(dice.up_to(20))),
    };
    ReachChange { k, change }
}
