// Reaches that cross a cut.
ghost use Rattle.std.specs.Prelude.{◌≡◌, IsTrue};
ghost use Rattle.flow.specs.Cuts.{crosses, cut_sum, crossing_count};
ghost use Rattle.flow.specs.Histories.{marked};
ghost use Rattle.network.specs.Answers.{arc_in};
ghost use Rattle.network.specs.Touching.{FirstFrom};

use crate::near::NEAR;
use network::{Network, Reach, Reaches};

// What the bottleneck call answers: the sum of the limits of the reaches that cross the bottleneck, and how many they are.
#[derive(Clone, Copy, PartialEq, Eq, Debug)]
pub struct Bottleneck {
    pub sum: u64,
    pub crossing: usize,
}

// Whether marks tell a junction as near. A junction that has no mark is far.
pub(crate) fn is_near(marks: &[u8], junction: u16) -> bool
    ensures { result ≡ marked marks.now junction }
{
    marks.get(usize::from(junction)) == Some(&NEAR)
}

// Whether a reach goes from near to far.
pub fn crosses(marks: &[u8], reach: Reach) -> bool
    ensures { result ≡ crosses (marked marks.now) (arc_in reach) }
{
    is_near(marks, reach.tail) && !is_near(marks, reach.head)
}

// The lowest number from k on of a reach that does, if there is one.
pub fn next_crossing<N: Network>(net: &N, marks: &[u8], k: usize) -> Option<usize>
    ensures { FirstFrom (λ r. IsTrue (crosses (marked marks.now) r)) (N.meaning net.now).reaches k result }
{
    for i in k..net.size().reaches {
        if crosses(marks, net.reach(i).unwrap()) {
            return Some(i);
        }
    }
    None
}

// The sum and the number of the reaches that cross the cut that the marks tell.
pub(crate) fn across<N: Network>(net: &N, marks: &[u8]) -> Bottleneck
    ensures sum { result.sum ≡ cut_sum (marked marks.now) (N.meaning net.now).reaches }
    ensures crossing { result.crossing ≡ crossing_count (marked marks.now) (N.meaning net.now).reaches }
{
    let mut found = Bottleneck {
        sum: 0,
        crossing: 0,
    };
    for reach in Reaches::of(net) {
        if crosses(marks, reach) {
            found.sum += u64::from(reach.limit);
            found.crossing += 1;
        }
    }
    found
}
