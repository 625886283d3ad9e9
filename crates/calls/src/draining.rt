ghost use Rattle.std.specs.Prelude.{◌≡◌, ℕ};
ghost use Rattle.flow.specs.Changes.{drained};

use network::Network;

// Sets every carried amount to 0. Never refused.
pub fn drain<N: Network>(net: &mut N)
    ensures done { N.meaning net.new ≡ drained (N.meaning net.old) }
    ensures giver { (j : ℕ) → N.giver net.new j ≡ N.giver net.old j }
{
    // By number, which `carry` takes; an iterator over the reaches would keep the network borrowed while it is changed.
    for k in 0..net.size().reaches {
        // Every reach takes the amount 0.
        net.carry(k, 0).unwrap();
    }
}
