ghost use Rattle.std.specs.Prelude.{◌≡◌, ◌<◌, ℕ, length, None, slice_index_or};
ghost use Rattle.std.proofs.Props.{props};
ghost use Rattle.flow.specs.Bounds.{most_junctions};
ghost use Rattle.layer.specs.Keeping.{own_arcs};
ghost use Rattle.layer.specs.Chambered.{twin_of, Chambering};

use layer::Extended;
use network::Network;
use network::bounds::MOST_JUNCTIONS;

pub mod calls;
pub mod entries;
mod twins;

// A network with chambers over it. A chamber at junction v splits v in two: all that entered v still enters v, all that
// left v leaves its twin, and between them stands one reach with the chamber's limit.
#[derive(Drop)]
pub struct Chambers<N: Network> {
    // the network below, and the chambers' reaches, each from a junction of it to the junction's twin
    extended: Extended<N>,
    // the twin of each junction of the network below, where it has a chamber: what the reaches say, kept so that it is told
    // in a constant number of steps (in an array, and not in a map: the library has no heap)
    twins: [Option<u16>; MOST_JUNCTIONS],
    // the chambers fit the network below
    ghost fit: { Chambering (N.meaning extended.below).junctions (length (N.meaning extended.below).reaches)
        (own_arcs extended.own) } by { Prim.hlevel props },
    // the array tells the twin of each junction
    ghost told: { (v : ℕ) → v < most_junctions → slice_index_or twins v None ≡ twin_of (own_arcs extended.own) v } by { Prim.hlevel props },
}
