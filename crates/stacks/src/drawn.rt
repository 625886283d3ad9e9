// Tables, layers and calls as the dice draw them.
ghost use Rattle.std.specs.Prelude.{◌<◌, ◌≤◌};

use crate::dice::Dice;
use crate::out::Out;
use crate::showing::{show_chamber, show_change, show_feeder};
use chambers::Chambers;
use gathering::{Gathering, Role};
use network::{Change, Network, Row};
use table::{Draft, Table};

// Where lines are printed, and the dice that say what is drawn and called.
#[derive(Drop)]
pub struct Session<'a> {
    pub out: &'a mut Out,
    pub dice: Dice,
}

// A junction below n. (`as`, here and below: what the dice give is below a small bound.)
fn draw_junction(dice: &mut Dice, n: u16) -> u16
    requires { 0 < n }
    ensures { result < n }
{
    dice.below(usize::from(n)) as u16
}

// Two different junctions below n.
fn draw_two(dice: &mut Dice, n: u16) -> (u16, u16)
    requires { 2 ≤ n }
{
    let first = dice.below(usize::from(n));
    let second = (first + 1 + dice.below(usize::from(n) - 1)) % usize::from(n);
    (first as u16, second as u16)
}

// A limit or an amount: 0, 100,000 and so on up to 1,100,000, which is too high.
fn draw_amount(dice: &mut Dice) -> u32 {
    dice.below(12) as u32 * 100_000
}

// A table of two to six junctions and at most seven reaches.
pub fn draw_table<'a>(dice: &mut Dice, rows: &'a mut [Row]) -> Table<'a> {
    let n = 2 + draw_junction(dice, 5);
    let (intake, outfall) = draw_two(dice, n);
    let mut draft = Draft::new(rows);
    let _ = draft.shape(n, intake, outfall);
    for _ in 0..dice.below(8) {
        let (tail, head) = draw_two(dice, n);
        let limit = dice.below(10) as u32;
        let _ = draft.lay(tail, head, limit);
    }
    draft.commission()
}

// A layer over a network of type N, for which entries are drawn and tried.
pub trait Layer<N>: Network {
    // The layer without an entry.
    fn over(below: N) -> Self;

    // Makes as many entries as a layer may have.
    fn fill(&mut self);

    // Tries one entry, and prints the answer.
    fn show_one_entry(&mut self, out: &mut Out);

    // Draws an entry over a network of n junctions, enters it, and prints the answer.
    fn draw_entry(&mut self, session: &mut Session<'_>, n: u16);
}

impl<N: Network> Layer<N> for Chambers<N> {
    fn over(below: N) -> Chambers<N> {
        Chambers::new(below)
    }

    // At the first 32 junctions.
    fn fill(&mut self) {
        for v in 0..32 {
            let _ = self.enter(v, 1000);
        }
    }

    fn show_one_entry(&mut self, out: &mut Out) {
        show_chamber(out, self, 0, 1000);
    }

    fn draw_entry(&mut self, session: &mut Session<'_>, n: u16) {
        let v = draw_junction(&mut session.dice, n.saturating_add(2));
        let q = draw_amount(&mut session.dice);
        show_chamber(session.out, self, v, q);
    }
}

impl<N: Network> Layer<N> for Gathering<N> {
    fn over(below: N) -> Gathering<N> {
        Gathering::new(below)
    }

    // Sixteen sources and sixteen sinks.
    fn fill(&mut self) {
        for _ in 0..16 {
            let _ = self.enter(Role::Source, 0, None);
        }
        for _ in 0..16 {
            let _ = self.enter(Role::Sink, 1, None);
        }
    }

    fn show_one_entry(&mut self, out: &mut Out) {
        show_feeder(out, self, Role::Source, 0, None);
    }

    fn draw_entry(&mut self, session: &mut Session<'_>, n: u16) {
        let dice = &mut session.dice;
        let role = if dice.below(2) == 0 {
            Role::Source
        } else {
            Role::Sink
        };
        let v = draw_junction(dice, n.saturating_add(1));
        let is_stated = dice.below(3) != 0;
        let q = draw_amount(dice);
        show_feeder(session.out, self, role, v, is_stated.then_some(q));
    }
}

// Puts a layer over a network: draws fewer than `most` entries, and where there is a reach one more while it may carry.
pub fn draw_layer<N: Network, L: Layer<N>>(session: &mut Session<'_>, net: N, most: usize) -> L
    requires { 0 < most }
{
    let n = net.size().junctions;
    let mut layer = L::over(net);
    for _ in 0..session.dice.below(most) {
        layer.draw_entry(session, n);
    }
    let m = layer.size().reaches;
    if m > 0 {
        let k = session.dice.below(m);
        let amount = session.dice.below(2) as u32;
        show_change(session.out, &mut layer, k, Change::Carry(amount));
        layer.draw_entry(session, n);
        show_change(session.out, &mut layer, k, Change::Carry(0));
    }
    layer
}

// Calls carry or limit once.
pub fn draw_call<N: Network>(session: &mut Session<'_>, net: &mut N) {
    let dice = &mut session.dice;
    let carries = dice.below(2) == 0;
    let k = dice.below(net.size().reaches + 1);
    let x = draw_amount(dice);
    let change = if carries {
        Change::Carry(x)
    } else {
        Change::Limit(x)
    };
    show_change(session.out, net, k, change);
}
