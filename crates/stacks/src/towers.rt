// Two towers of full layers, which come to as many junctions and to as many reaches as a network may have.
ghost use Rattle.std.specs.Prelude.{◌≤◌};

use crate::drawn::Layer;
use crate::lines::write_line;
use crate::out::Out;
use crate::showing::show_size;
use chambers::Chambers;
use gathering::Gathering;
use network::{Network, Row};
use table::{Draft, Table};

// Puts a layer over a network, with as many entries as it may have.
fn full_layer<N: Network, L: Layer<N>>(net: N) -> L {
    let mut layer = L::over(net);
    layer.fill();
    layer
}

// Puts a layer over a network, tries one entry, and prints the size.
fn show_one<N: Network, L: Layer<N>>(out: &mut Out, net: N) -> L {
    let mut layer = L::over(net);
    layer.show_one_entry(out);
    show_size(out, &layer);
    layer
}

// What is built over a network. One of these holds what comes after it, so that no function writes out a whole tower: the
// checker turns down the type of one of 32 layers ("structs, enums, tuples, arrays and references nest more than 64
// deep"). (A trait, since its method is generic, which no closure is.)
trait Above {
    fn build<N: Network + Drop>(self, out: &mut Out, net: N);
}

// A full layer of chambers, with its size printed, and more.
struct Chambered<A>(A);

impl<A: Above> Above for Chambered<A> {
    fn build<N: Network + Drop>(self, out: &mut Out, net: N) {
        let Chambered(above) = self;
        let layer: Chambers<N> = full_layer(net);
        show_size(out, &layer);
        above.build(out, layer);
    }
}

// A full gathering, and more.
struct Gathered<A>(A);

impl<A: Above> Above for Gathered<A> {
    fn build<N: Network + Drop>(self, out: &mut Out, net: N) {
        let Gathered(above) = self;
        let layer: Gathering<N> = full_layer(net);
        above.build(out, layer);
    }
}

// Eight full gatherings, and more.
struct EightGathered<A>(A);

impl<A: Above> Above for EightGathered<A> {
    fn build<N: Network + Drop>(self, out: &mut Out, net: N) {
        let EightGathered(above) = self;
        let four = Gathered(Gathered(Gathered(Gathered(above))));
        let eight = Gathered(Gathered(Gathered(Gathered(four))));
        eight.build(out, net);
    }
}

// The two layers that find no junction left.
struct NoJunctionLeft;

impl Above for NoJunctionLeft {
    fn build<N: Network + Drop>(self, out: &mut Out, net: N) {
        let NoJunctionLeft = self;
        let net: Chambers<N> = show_one(out, net);
        let _: Gathering<Chambers<N>> = show_one(out, net);
    }
}

// The two layers that find no reach left.
struct NoReachLeft;

impl Above for NoReachLeft {
    fn build<N: Network + Drop>(self, out: &mut Out, net: N) {
        let NoReachLeft = self;
        show_size(out, &net);
        let net: Gathering<N> = show_one(out, net);
        let _: Chambers<Gathering<N>> = show_one(out, net);
    }
}

// A table with a reach in every row, all of them from the first junction, its intake, to the last, its outfall.
fn full_table(rows: &mut [Row], n: u16, limit: u32) -> Table<'_>
    requires { 1 ≤ n }
{
    let count = rows.len();
    let mut draft = Draft::new(rows);
    let _ = draft.shape(n, 0, n - 1);
    for _ in 0..count {
        let _ = draft.lay(0, n - 1, limit);
    }
    draft.commission()
}

// 256 junctions, and eight full layers of chambers.
pub fn show_tower_of_junctions(out: &mut Out) {
    write_line(out, "tower", "junctions");
    let mut rows = [Row::default(); 1];
    let table = full_table(&mut rows, 256, 10);
    let four = Chambered(Chambered(Chambered(Chambered(NoJunctionLeft))));
    let eight = Chambered(Chambered(Chambered(Chambered(four))));
    eight.build(out, table);
}

// 1,024 reaches, and 32 full gatherings.
pub fn show_tower_of_reaches(out: &mut Out) {
    write_line(out, "tower", "reaches");
    let mut rows = [Row::default(); 1024];
    let table = full_table(&mut rows, 2, 1);
    let tower = EightGathered(EightGathered(EightGathered(EightGathered(NoReachLeft))));
    tower.build(out, table);
}
