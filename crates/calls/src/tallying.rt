ghost use Rattle.std.specs.Prelude.{◌≡◌};
ghost use Rattle.flow.specs.Flows.{delivered};

use network::{Network, Reaches};

// What the network delivers: what leaves the intake minus what enters it, below 0 too. Never refused.
pub fn tally<N: Network>(net: &N) -> i64
    ensures { result ≡ delivered (N.meaning net.now) }
{
    let size = net.size();
    let mut sum: i64 = 0;
    for reach in Reaches::of(net) {
        if reach.tail == size.intake {
            sum += i64::from(reach.carried);
        }
        if reach.head == size.intake {
            sum -= i64::from(reach.carried);
        }
    }
    sum
}
