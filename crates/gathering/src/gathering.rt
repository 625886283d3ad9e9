ghost use Rattle.std.specs.Prelude.{◌≤◌, length, take, drop};
ghost use Rattle.std.proofs.Props.{props};
ghost use Rattle.layer.specs.Keeping.{own_arcs};
ghost use Rattle.layer.specs.Gathered.{FeedersFit};
ghost use Rattle.gathering.specs.Bounds.{most_of_each};

use layer::Extended;
use network::Network;

pub mod calls;
pub mod entries;

// A network with sources and sinks gathered over it. With the first of them a new intake and a new outfall appear, which
// feeders join to the sources and the sinks.
#[derive(Drop)]
pub struct Gathering<N: Network> {
    // the network below, and the feeders: those of the sources in the order given, then those of the sinks in the
    // order given (one list with a count, and not two lists: a feeder's place in it is its number)
    extended: Extended<N>,
    // how many sources there are
    sources: usize,
    ghost within: { sources ≤ length (own_arcs extended.own) },
    ghost few_sources: { length (take sources (own_arcs extended.own)) ≤ most_of_each },
    ghost few_sinks: { length (drop sources (own_arcs extended.own)) ≤ most_of_each },
    ghost fit: { FeedersFit (N.meaning extended.below).junctions (length (N.meaning extended.below).reaches)
        (take sources (own_arcs extended.own)) (drop sources (own_arcs extended.own)) } by { Prim.hlevel props },
}
