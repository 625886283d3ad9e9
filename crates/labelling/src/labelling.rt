ghost use Rattle.labelling.specs.Heights.{Bounded};

use network::bounds::MOST_JUNCTIONS;

// A label and a current step for each junction.
#[derive(Clone, Copy)]
pub struct Labelling {
    pub(crate) labels: [u16; MOST_JUNCTIONS],
    pub(crate) current: [u16; MOST_JUNCTIONS],
    ghost bounded: { Bounded labels },
}

impl Labelling {
    ghost use Rattle.std.specs.Prelude.{◌≡◌, ◌≤◌};
    ghost use Rattle.labelling.specs.Heights.{highest_label};
    ghost use Rattle.labelling.specs.Keeping.{label_of, current_of};

    // The label of a junction; 0 for a number that is none.
    pub fn label(&self, junction: u16) -> u16
        ensures value { result ≡ label_of self.now junction }
        ensures low { result ≤ highest_label }
    {
        self.labels.get(usize::from(junction)).copied().unwrap_or(0)
    }

    // The current step of a junction: those that go before it need not be looked at. 0 for a number that is none.
    pub fn current(&self, junction: u16) -> u16
        ensures { result ≡ current_of self.now junction }
    {
        self.current
            .get(usize::from(junction))
            .copied()
            .unwrap_or(0)
    }
}
