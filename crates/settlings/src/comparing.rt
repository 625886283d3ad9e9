// Comparing networks with each other.
use network::{Network, Reach, Reaches};

// The four numbers of a reach.
fn numbers(reach: Reach) -> [u32; 4] {
    [
        u32::from(reach.tail),
        u32::from(reach.head),
        reach.limit,
        reach.carried,
    ]
}

// Whether two networks are the same: their sizes, and every reach with what it carries.
pub fn are_same_networks<N: Network>(one: &N, other: &N) -> bool {
    for (a, b) in Reaches::of(one).zip(Reaches::of(other)) {
        if numbers(a) != numbers(b) {
            return false;
        }
    }
    one.size() == other.size()
}
