ghost use Rattle.std.specs.Prelude.{◌≡◌, []};
ghost use Rattle.routes.specs.Routing.{steps_of, Pushed, Popped};

use arrayvec::ArrayVec;

// The most steps that a route has room for. A shortest route has fewer steps than its network has junctions.
pub const MOST_STEPS: usize = 512;

// Steps by their numbers, one after another. A route is answered by value, and nothing of it is allocated.
#[derive(Clone, Drop)]
pub struct Route {
    steps: ArrayVec<u16, MOST_STEPS>,
}

impl Route {
    // No step.
    pub fn new() -> Route
        ensures { steps_of result ≡ [] }
    {
        Route {
            steps: ArrayVec::new(),
        }
    }

    // The steps, in their order.
    pub fn steps(&self) -> &[u16]
        ensures { result.now ≡ steps_of self.now }
    {
        &self.steps
    }

    // Puts a step behind the others; `None` where there is no room for it.
    pub fn push(&mut self, step: u16) -> Option<()>
        ensures { Pushed (steps_of self.old) step result (steps_of self.new) }
    {
        self.steps.try_push(step).ok()
    }

    // Takes the last step away; `None` where there is none.
    pub fn pop(&mut self) -> Option<u16>
        ensures { Popped (steps_of self.old) result (steps_of self.new) }
    {
        self.steps.pop()
    }
}
