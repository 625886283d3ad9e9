// Going through the reaches of a network, in the order of their numbers.
ghost use Rattle.std.specs.Prelude.{◌≡◌};
ghost use Rattle.std.specs.Iterator.{YieldsFirstBy, item_count};
ghost use Rattle.network.specs.Answers.{arc_in};
ghost use Rattle.network.specs.Going.{reaches_left, TouchedNext, touches_left};

use crate::interface::Network;
use crate::reach::Reach;

// The reaches of a network that are still to come.
#[derive_where(Clone, Copy)]
pub struct Reaches<'a, N> {
    net: &'a N,
    // the number of the next one
    next: usize,
}

// The numbers of the reaches that have a junction at an end, which are still to come.
#[derive_where(Clone, Copy)]
pub struct Touching<'a, N> {
    net: &'a N,
    junction: u16,
    // the lowest number that the next one may have
    next: usize,
}

impl<'a, N: Network> Reaches<'a, N> {
    // All reaches of a network.
    pub fn of(net: &'a N) -> Reaches<'a, N>
        ensures { reaches_left N.meaning result ≡ (N.meaning net.now).reaches }
    {
        Reaches { net, next: 0 }
    }
}

impl<'a, N: Network> Touching<'a, N> {
    // The numbers from k on of the reaches that have the junction as tail or head.
    pub fn from(net: &'a N, junction: u16, k: usize) -> Touching<'a, N>
        ensures net { result.net ≡ net.entry }
        ensures junction { result.junction ≡ junction }
        ensures next { result.next ≡ k }
    {
        Touching {
            net,
            junction,
            next: k,
        }
    }
}

impl<N: Network> Iterator for Reaches<'_, N> {
    type Item = Reach;

    ghost next_gives = { YieldsFirstBy arc_in (reaches_left N.meaning) };

    ghost remaining = { item_count (reaches_left N.meaning) };

    fn next(&mut self) -> Option<Reach> {
        let reach = self.net.reach(self.next).ok()?;
        self.next += 1;
        Some(reach)
    }
}

impl<N: Network> Iterator for Touching<'_, N> {
    type Item = usize;

    ghost next_gives = { TouchedNext N.meaning };

    ghost remaining = { touches_left N.meaning };

    fn next(&mut self) -> Option<usize> {
        let i = self.net.touch(self.junction, self.next)?;
        self.next = i + 1;
        Some(i)
    }
}
