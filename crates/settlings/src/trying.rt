// What is done to each network, and the line that is printed for it.
use crate::changing::draw_change;
use crate::copies::{Copies, CopyRows, make_copies};
use crate::dice::Dice;
use crate::figures::Figures;
use crate::form::{Form, Kind, Scale};
use crate::stepping::Asking;
use network::{Network, Size};
use std::fmt;

// The seeds of the first network, and of what is done to it.
const NETWORK_SEED: u64 = 5000;

const TRIAL_SEED: u64 = 6000;

// A budget that no settling of a table spends: its routes are at most reaches × (junctions − 1).
const WHOLE_BUDGET: u32 = 300_000;

// What was found with a network.
#[derive(Clone, Copy)]
pub struct Trial {
    number: u32,
    form: Form,
    size: Size,
    // of the settlings from what it carried at first on
    settled: Figures,
    // of the one settling after it was drained
    drained: Figures,
}

// The highest budget of a settling that may leave routes.
fn most_budget(scale: Scale) -> u32 {
    u32::from(scale.pick(5, 20, 80))
}

// Makes up to four changes in every copy.
fn change_some<N: Network>(
    copies: &mut Copies<N>,
    dice: &mut Dice,
    kind: Kind,
    figures: &mut Figures,
) {
    for _ in 0..dice.up_to(4) {
        let change = draw_change(dice, kind, &copies.by_routes);
        figures.same &= copies.change(change);
    }
}

// Settles until no route is left.
fn settle_whole<N: Network>(copies: &mut Copies<N>, asking: Asking, figures: &mut Figures) {
    copies.settle(WHOLE_BUDGET, asking, figures);
    figures.same &= figures.finished;
}

// Settles up to twice with a small budget, each time with changes afterwards, and then until no route is left.
fn settle_in_parts<N: Network>(
    copies: &mut Copies<N>,
    dice: &mut Dice,
    form: Form,
    asking: Asking,
) -> Figures {
    let mut figures = Figures::new();
    for _ in 0..dice.up_to(2) {
        let budget = dice.up_to(most_budget(form.scale));
        copies.settle(budget, asking, &mut figures);
        change_some(copies, dice, form.kind, &mut figures);
    }
    settle_whole(copies, asking, &mut figures);
    figures
}

// Settles once, from dry.
fn settle_drained<N: Network>(copies: &mut Copies<N>, asking: Asking) -> Figures {
    let mut figures = Figures::new();
    copies.drain();
    settle_whole(copies, asking, &mut figures);
    figures
}

// Makes the network of a number, and settles it.
pub fn try_network(number: u32, rows: &mut CopyRows) -> Trial {
    let form = Form::of(number);
    let mut copies = make_copies(form, NETWORK_SEED + u64::from(number), rows);
    let mut dice = Dice::new(TRIAL_SEED + u64::from(number));
    let asking = if dice.one_in(2) {
        Asking::Twice
    } else {
        Asking::Once
    };
    let settled = settle_in_parts(&mut copies, &mut dice, form, asking);
    let drained = settle_drained(&mut copies, asking);
    Trial {
        number,
        form,
        size: copies.by_routes.size(),
        settled,
        drained,
    }
}

// The number, the kind, the junctions and the reaches; the figures; and whether all that was compared is the same.
impl fmt::Display for Trial {
    fn fmt<W: fmt::Write>(&self, f: &mut fmt::Formatter<W>) -> fmt::Result {
        let junctions = self.size.junctions;
        let reaches = self.size.reaches;
        let is_same = self.settled.same && self.drained.same;
        write!(f, "{} {} ", self.number, self.form.word)?;
        write!(f, "{junctions} {reaches}: {}", self.settled)?;
        let same = if is_same { "same" } else { "DIFFERENT" };
        write!(f, ", drained {}, {same}", self.drained)
    }
}
