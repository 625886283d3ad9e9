// What the entries of all layers check.
ghost use Rattle.std.specs.Prelude.{◌≡◌};
ghost use Rattle.flow.specs.Flows.{carries_any};
ghost use Rattle.layer.specs.Layering.{crowded};

use network::bounds::{MOST_JUNCTIONS, MOST_REACHES};
use network::{Network, Reaches};

// Whether some reach of a network carries more than 0.
pub fn carries_any<N: Network>(net: &N) -> bool
    ensures { result ≡ carries_any (N.meaning net.now).reaches }
{
    let mut reaches = Reaches::of(net);
    reaches.any(|reach| reach.carried > 0)
}

// Whether these are more junctions or more reaches than a network may have.
pub fn is_crowded(junctions: usize, reaches: usize) -> bool
    ensures { result ≡ crowded junctions reaches }
{
    junctions > MOST_JUNCTIONS || reaches > MOST_REACHES
}
