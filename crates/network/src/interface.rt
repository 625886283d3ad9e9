ghost use Rattle.std.specs.Prelude.{◌≡◌, ℕ};
ghost use Rattle.flow.specs.Net.{Net, Sound};
ghost use Rattle.refusal.specs.declared.Part.{Part};
ghost use Rattle.network.specs.Answers.{size_of, Told};
ghost use Rattle.network.specs.Touching.{Touched};
ghost use Rattle.network.specs.declared.change.Change.TheVariants as changes;
ghost use Rattle.network.specs.Changing.{Changed};

use crate::change::Change;
use crate::reach::Reach;
use crate::size::Size;
use refusal::Refusal;

// The calls that every network offers, whatever it is made of. An implementation says by the ghost members what it
// means, and shows its calls against that meaning; code over networks is proved once, against the same.
pub trait Network {
    // What the network means: its size and its list of reaches.
    ghost meaning: { Self → Net };

    // Every network is sound: its numbers keep to their bounds.
    ghost sound: { (x : Self) → Sound (meaning x) };

    // The part that answers for reach k: it gives the refusals 5, 6 and 7 of a change of that reach.
    ghost giver: { Self → ℕ → Part };

    // How large the network is, and where it begins and ends.
    fn size(&self) -> Size
        ensures { result ≡ size_of (meaning self.now) };

    // The record of reach k. Refuses 4.
    fn reach(&self, k: usize) -> Result<Reach, Refusal>
        ensures { Told (meaning self.now).reaches k result };

    // The lowest reach number from k on whose reach has the junction as tail or head, if there is one. (Junction and number
    // are no struct: who asks on goes on from another number at the same junction.)
    fn touch(&self, junction: u16, k: usize) -> Option<usize>
        ensures { Touched junction (meaning self.now).reaches k result }
    {
        // Not by `Reaches::of(self)`, which gets no proof in a trait's body ("it passes on a bound that gives less than is
        // asked"), nor by `find` on the range, whose closure leaves `unwrap-requires` open.
        for i in k..self.size().reaches {
            if self.reach(i).unwrap().touches(junction) {
                return Some(i);
            }
        }
        None
    }

    // Sets one number of reach k. Refuses 4, and then as the number asks.
    fn change(&mut self, k: usize, change: Change) -> Result<(), Refusal>
        ensures done { Changed change (meaning self.old) (giver self.old) k result (meaning self.new) }
        ensures giver { (j : ℕ) → giver self.new j ≡ giver self.old j };

    // Sets the amount that reach k carries. Refuses 4, then 7.
    fn carry(&mut self, k: usize, amount: u32) -> Result<(), Refusal>
        ensures done { Changed (changes.Carry amount) (meaning self.old) (giver self.old) k result
            (meaning self.new) }
        ensures giver { (j : ℕ) → giver self.new j ≡ giver self.old j }
    {
        self.change(k, Change::Carry(amount))
    }

    // Sets the limit of reach k. Refuses 4, then 5, then 6.
    fn limit(&mut self, k: usize, q: u32) -> Result<(), Refusal>
        ensures done { Changed (changes.Limit q) (meaning self.old) (giver self.old) k result
            (meaning self.new) }
        ensures giver { (j : ℕ) → giver self.new j ≡ giver self.old j }
    {
        self.change(k, Change::Limit(q))
    }
}
