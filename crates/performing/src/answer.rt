use calls::Settled;
use marking::Bottleneck;
use network::{Reach, Size};

// What a call that is not refused answers.
#[derive(Clone, Copy)]
pub enum Answer {
    Settled(Settled),
    // the limit of that reach was set
    Limited { reach: usize, limit: u32 },
    Drained,
    // what the network delivers
    Tally(i64),
    Bottleneck(Bottleneck),
    Size(Size),
    Reach(Reach),
    // the reach that touch found, if there is one
    Touched(Option<usize>),
}
