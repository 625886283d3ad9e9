// The search DD2: exact labels, and for each junction that reaches the outfall its first admissible step. Both are kept
// between questions, and mended where a push has closed a step.
use crate::pending::Pending;
use labelling::Labelling;
use network::Network;
use routes::{Begun, OpenSteps, Route, Search, begin_of};

// The search, resting.
#[derive(PartialEq, Eq, Debug, Default, Drop)]
pub struct Dd2;

// The search, begun. The pending junctions are to be mended before the next answer.
pub struct BegunDd2 {
    kept: Labelling,
    pending: Pending,
}

impl BegunDd2 {
    ghost use Rattle.std.specs.Prelude.{◌≡◌, ◌<◌, ◌≤◌, ℕ, All};
    ghost use Rattle.flow.specs.Bounds.{most_junctions};
    ghost use Rattle.flow.specs.Steps.{begins, IsOpen};
    ghost use Rattle.routes.specs.declared.step.StepEnd.TheVariants.{Finish};
    ghost use Rattle.routes.specs.Ends.{OpensAt};
    ghost use Rattle.routes.specs.Routing.{steps_of};
    ghost use Rattle.labelling.specs.Keeping.{current_of};
    ghost use Rattle.labelling.specs.Moving.{OnSomeUnit};
    ghost use Rattle.searches.specs.Waiting.{IsPending, pending_count};
    ghost use Rattle.searches.specs.Mending.{Mends, Mended, work_left};

    // Mends the pending junctions, and those that become so, until none is. `None` where what is kept turns out not to fit
    // the network.
    fn mend<N: Network>(&mut self, net: &N) -> Option<()>
        ensures { Mended (N.meaning net.now) self.old result self.new }
    {
        'mending: while let Some(at) = self.pending.take() {
            self.mend_at(net, at)?;
        }
        Some(())
    }

    // Mends one junction: finds its first admissible step, or raises its label.
    fn mend_at<N: Network>(&mut self, net: &N, at: u16) -> Option<()>
        requires { at < most_junctions }
        ensures mends { Mends (N.meaning net.now) self.old at result self.new }
        ensures work { OnSomeUnit result (work_left self.new ≤ work_left self.old) }
    {
        let size = net.size();
        if at == size.outfall || self.kept.label(at) >= size.junctions {
            return Some(());
        }
        let None = self.kept.advance(net, at) else {
            return Some(());
        };
        self.kept.lift(net, at)?;
        self.add_followers(net, at);
        Some(())
    }

    // Makes a junction pending, and those whose current step leads to it.
    fn add_followers<N: Network>(&mut self, net: &N, at: u16)
        ensures kept { self.new.kept ≡ self.old.kept }
        ensures grows { (u : ℕ) → IsPending self.old.pending u → IsPending self.new.pending u }
        ensures here { at < most_junctions → IsPending self.new.pending at }
        ensures followers { (s : ℕ) → OpensAt Finish (N.meaning net.now).reaches at s →
            current_of self.old.kept (begins (N.meaning net.now).reaches s) ≡ s →
            IsPending self.new.pending (begins (N.meaning net.now).reaches s) }
        ensures few { pending_count self.new.pending ≤ most_junctions }
    {
        self.pending.add(at);
        for step in OpenSteps::entering(net, at) {
            if self.kept.current(step.begin) == step.number {
                self.pending.add(step.begin);
            }
        }
    }

    // Makes the junctions pending at which the steps of a route begin: to push it may close them.
    fn add_begins<N: Network>(&mut self, net: &N, route: &Route)
        ensures kept { self.new.kept ≡ self.old.kept }
        ensures grows { (u : ℕ) → IsPending self.old.pending u → IsPending self.new.pending u }
        ensures begins { All (λ s. IsOpen (N.meaning net.now).reaches s →
            IsPending self.new.pending (begins (N.meaning net.now).reaches s)) (steps_of route.now) }
    {
        for step in route.steps() {
            self.add_begin(net, *step);
        }
    }

    // Makes the junction pending at which a step begins.
    fn add_begin<N: Network>(&mut self, net: &N, step: u16)
        ensures kept { self.new.kept ≡ self.old.kept }
        ensures grows { (u : ℕ) → IsPending self.old.pending u → IsPending self.new.pending u }
        ensures begin { IsOpen (N.meaning net.now).reaches step →
            IsPending self.new.pending (begins (N.meaning net.now).reaches step) }
    {
        if let Some(at) = begin_of(net, step) {
            self.pending.add(at);
        }
    }
}

impl Search for Dd2 {
    type Begun = BegunDd2;

    fn begin<N: Network>(self, net: &N) -> BegunDd2 {
        let mut pending = Pending::none();
        for v in 0..net.size().junctions {
            pending.add(v);
        }
        BegunDd2 {
            kept: Labelling::exact(net),
            pending,
        }
    }
}

impl Begun for BegunDd2 {
    type Resting = Dd2;

    ghost use Rattle.searches.specs.Mending.{InStep};

    ghost in_step = { InStep };

    fn route<N: Network>(&mut self, net: &N) -> Option<Route> {
        self.mend(net)?;
        let route = self.kept.follow(net)?;
        self.add_begins(net, &route);
        Some(route)
    }

    fn end(self) -> Dd2 {
        let BegunDd2 {
            kept: _,
            pending: _,
        } = self;
        Dd2
    }
}
