// The near side of a network.
ghost use Rattle.std.specs.Prelude.{◌≡◌, ℕ, ◌≤◌, length, slice_index};
ghost use Rattle.flow.specs.Bounds.{most_junctions};
ghost use Rattle.flow.specs.Cuts.{IsBottleneck};
ghost use Rattle.flow.specs.Histories.{marked};

use arrayvec::ArrayVec;
use network::Network;
use network::bounds::MOST_JUNCTIONS;
use routes::{FIRST_STEP, OpenSteps};

// The marks of a junction that is near, and of one that is far.
pub(crate) const NEAR: u8 = 1;

pub(crate) const FAR: u8 = 0;

// The marks of all junctions. Found from the intake on, along open steps, by a queue of the junctions that are marked and
// have not been looked at.
pub(crate) fn near_marks<N: Network>(net: &N) -> [u8; MOST_JUNCTIONS]
    ensures long { length result ≡ most_junctions }
    ensures bits { (v : ℕ) → slice_index result v ≤ 1 }
    ensures near { IsBottleneck (N.meaning net.now) (marked result) }
{
    let intake = net.size().intake;
    let mut marks = [FAR; MOST_JUNCTIONS];
    marks[usize::from(intake)] = NEAR;
    let mut queue: ArrayVec<u16, MOST_JUNCTIONS> = ArrayVec::new();
    queue.push(intake);
    let mut next = 0;
    'queue: while let Some(at) = queue.get(next).copied() {
        'leaving: for step in OpenSteps::leaving(net, at, FIRST_STEP) {
            let place = usize::from(step.finish);
            if marks[place] == FAR {
                marks[place] = NEAR;
                queue.push(step.finish);
            }
        }
        next += 1;
    }
    marks
}
