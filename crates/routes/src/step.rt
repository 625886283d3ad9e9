// Steps: the two ways along a reach. Step 2k goes along reach k from its tail to its head, step 2k + 1 goes back.
ghost use Rattle.std.specs.Prelude.{◌≡◌, ◌<◌};
ghost use Rattle.flow.specs.Bounds.{most_reaches};
ghost use Rattle.flow.specs.Steps.{step_along, goes_back};
ghost use Rattle.network.specs.Answers.{arc_in, is_back};
ghost use Rattle.routes.specs.declared.step.StepEnd.TheVariants as ends;
ghost use Rattle.routes.specs.Ends.{end_at_way};
ghost use Rattle.routes.specs.Going.{first_step, TheOpen, OpenNext, steps_left, BeginTold};

use network::{Network, Reach, Way};

// The step that goes first of all. The order of steps is that in which routes of one length are pushed.
pub const FIRST_STEP: u16 = 0;

// An open step of a network: its number, and the junctions at which it begins and finishes.
#[derive(Clone, Copy, PartialEq, Eq, Debug)]
pub struct OpenStep {
    pub number: u16,
    pub begin: u16,
    pub finish: u16,
}

// An end of a step.
#[derive(Clone, Copy, PartialEq, Eq, Debug)]
pub enum StepEnd {
    Begin,
    Finish,
}

// The open steps with an end at a junction that are still to come, in their order.
#[derive_where(Clone, Copy)]
pub struct OpenSteps<'a, N> {
    net: &'a N,
    junction: u16,
    end: StepEnd,
    // the first that the next one may be
    next: usize,
}

impl StepEnd {
    // That end of the step along a reach.
    fn of(self, reach: Reach, way: Way) -> u16
        ensures { result ≡ end_at_way self (is_back way) (arc_in reach) }
    {
        match self {
            StepEnd::Begin => reach.begin(way),
            StepEnd::Finish => reach.finish(way),
        }
    }
}

// The open step along reach k that has that end at the junction, if there is one.
fn open_step<N: Network>(net: &N, end: StepEnd, junction: u16, k: usize) -> Option<OpenStep>
    ensures { TheOpen (N.meaning net.now).reaches end junction k result }
{
    let reach = net.reach(k).ok()?;
    let way = if end.of(reach, Way::Forth) == junction {
        Way::Forth
    } else {
        Way::Back
    };
    if end.of(reach, way) != junction || reach.headroom(way) == 0 {
        return None;
    }
    Some(OpenStep {
        number: step_number(k as u16, way),
        begin: reach.begin(way),
        finish: reach.finish(way),
    })
}

// The number of the step along reach k.
fn step_number(k: u16, way: Way) -> u16
    requires { k < most_reaches }
    ensures { result ≡ step_along k (is_back way) }
{
    match way {
        Way::Forth => 2 * k,
        Way::Back => 2 * k + 1,
    }
}

impl<'a, N: Network> OpenSteps<'a, N> {
    // The open steps that begin at the junction, from step `first` on.
    pub fn leaving(net: &'a N, junction: u16, first: u16) -> OpenSteps<'a, N>
        ensures net { result.net ≡ net.entry }
        ensures junction { result.junction ≡ junction }
        ensures end { result.end ≡ ends.Begin }
        ensures next { result.next ≡ first }
    {
        OpenSteps {
            net,
            junction,
            end: StepEnd::Begin,
            next: usize::from(first),
        }
    }

    // The open steps that finish at the junction.
    pub fn entering(net: &'a N, junction: u16) -> OpenSteps<'a, N>
        ensures net { result.net ≡ net.entry }
        ensures junction { result.junction ≡ junction }
        ensures end { result.end ≡ ends.Finish }
        ensures next { result.next ≡ first_step }
    {
        OpenSteps {
            net,
            junction,
            end: StepEnd::Finish,
            next: usize::from(FIRST_STEP),
        }
    }
}

impl<N: Network> Iterator for OpenSteps<'_, N> {
    type Item = OpenStep;

    ghost next_gives = { OpenNext N.meaning };

    ghost remaining = { steps_left N.meaning };

    fn next(&mut self) -> Option<OpenStep> {
        while let Some(k) = self.net.touch(self.junction, self.next / 2) {
            let first = self.next;
            self.next = 2 * k + 2;
            if let Some(step) = open_step(self.net, self.end, self.junction, k)
                && usize::from(step.number) >= first
            {
                return Some(step);
            }
        }
        None
    }
}

// The way in which a step goes along its reach.
pub fn way_of(step: u16) -> Way
    ensures { is_back result ≡ goes_back step }
{
    if step % 2 == 1 { Way::Back } else { Way::Forth }
}

// The junction at which a step begins, if the network has such a step.
pub fn begin_of<N: Network>(net: &N, step: u16) -> Option<u16>
    ensures { BeginTold (N.meaning net.now).reaches step result }
{
    let reach = net.reach(usize::from(step / 2)).ok()?;
    Some(reach.begin(way_of(step)))
}
