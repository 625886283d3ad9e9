ghost use Rattle.marking.specs.Marks.{Marked};

use crate::crossing::{Bottleneck, across, is_near};
use crate::near::near_marks;
use network::Network;
use refusal::{Fault, Part, Refusal};

// Marks the junctions from 0 to n − 1, in their order: 1 where open steps lead there from the intake, 0 elsewhere; marks
// behind them stay as they are. Refuses 8 where there are fewer marks than junctions, then 10 where a route exists, and
// then writes no mark.
pub fn bottleneck<N: Network>(net: &N, marks: &mut [u8]) -> Result<Bottleneck, Refusal>
    ensures { Marked (N.meaning net.now) marks.old result marks.new }
{
    let size = net.size();
    let n = usize::from(size.junctions);
    if marks.len() < n {
        return Err(Refusal::new(Fault::NoPlace, Part::Network));
    }
    let near = near_marks(net);
    if is_near(&near, size.outfall) {
        return Err(Refusal::new(Fault::RouteExists, Part::Network));
    }
    marks[..n].copy_from_slice(&near[..n]);
    Ok(across(net, &near))
}
