// Exact labels: distances to the outfall by open steps.
ghost use Rattle.std.specs.Prelude.{◌≡◌, ◌≢◌, ℕ, ◌<◌, ◌≤◌, length, slice_index};
ghost use Rattle.flow.specs.Bounds.{most_junctions};
ghost use Rattle.flow.specs.Labels.{ExactLabels};
ghost use Rattle.routes.specs.Going.{first_step};
ghost use Rattle.labelling.specs.Keeping.{label_of, current_of};

use crate::labelling::Labelling;
use arrayvec::ArrayVec;
use network::bounds::MOST_JUNCTIONS;
use network::{Network, Size};
use routes::{FIRST_STEP, OpenSteps};

impl Labelling {
    // Exact labels, n where the outfall cannot be reached; each junction's steps begin from the first. Found from the outfall
    // on, against open steps, by a queue of the junctions that are labelled and have not been looked at.
    pub fn exact<N: Network>(net: &N) -> Labelling
        ensures exact { ExactLabels (N.meaning net.now) (label_of result) }
        ensures most { (v : ℕ) → label_of result v ≤ (N.meaning net.now).junctions }
        ensures current { (v : ℕ) → current_of result v ≡ first_step }
    {
        let size = net.size();
        let mut labels = unlabelled(size);
        let mut queue: ArrayVec<u16, MOST_JUNCTIONS> = ArrayVec::new();
        queue.push(size.outfall);
        let mut next = 0;
        'queue: while let Some(at) = queue.get(next).copied() {
            let above = labels[usize::from(at)] + 1;
            'entering: for step in OpenSteps::entering(net, at) {
                let place = usize::from(step.begin);
                if labels[place] == size.junctions {
                    labels[place] = above;
                    queue.push(step.begin);
                }
            }
            next += 1;
        }
        beginning(labels)
    }
}

// The labels before any junction but the outfall has got one: 0 there, n everywhere else.
fn unlabelled(size: Size) -> [u16; MOST_JUNCTIONS]
    requires { size.outfall < most_junctions }
    ensures long { length result ≡ most_junctions }
    ensures outfall { slice_index result size.outfall ≡ 0 }
    ensures blank { (v : ℕ) → v < most_junctions → v ≢ size.outfall → slice_index result v ≡ size.junctions }
    ensures most { (v : ℕ) → slice_index result v ≤ size.junctions }
{
    let mut labels = [size.junctions; MOST_JUNCTIONS];
    labels[usize::from(size.outfall)] = 0;
    labels
}

// These labels, where each junction's steps begin from the first.
fn beginning(labels: [u16; MOST_JUNCTIONS]) -> Labelling
    requires { (v : ℕ) → slice_index labels v ≤ most_junctions }
    ensures labels { label_of result ≡ slice_index labels }
    ensures current { (v : ℕ) → current_of result v ≡ first_step }
{
    Labelling {
        labels,
        current: [FIRST_STEP; MOST_JUNCTIONS],
    }
}
