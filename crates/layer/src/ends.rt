// Reaches that have a junction at one given end, found by touch.
ghost use Rattle.std.specs.Prelude.{◌≡◌};
ghost use Rattle.network.specs.Answers.{arc_in};
ghost use Rattle.network.specs.Touching.{FirstFrom};
ghost use Rattle.layer.specs.Ends.{end_of};

use network::{Network, Reach, Touching};

// An end of a reach.
#[derive(Clone, Copy, PartialEq, Eq, Debug)]
pub enum End {
    Tail,
    Head,
}

impl End {
    // The junction at this end of a reach.
    pub fn of(self, reach: Reach) -> u16
        ensures { result ≡ end_of self (arc_in reach) }
    {
        match self {
            End::Tail => reach.tail,
            End::Head => reach.head,
        }
    }
}

// The lowest reach number from k on whose reach has the junction at this end, found among those that touch it.
pub fn next_at<N: Network>(net: &N, end: End, junction: u16, k: usize) -> Option<usize>
    ensures { FirstFrom (λ a. end_of end a ≡ junction) (N.meaning net.now).reaches k result }
{
    // Not by `find`, whose closure leaves `unwrap-requires` open.
    for i in Touching::from(net, junction, k) {
        if end.of(net.reach(i).unwrap()) == junction {
            return Some(i);
        }
    }
    None
}
