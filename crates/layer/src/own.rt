// The rows that a layer keeps for the reaches that it adds.
ghost use Rattle.std.specs.Prelude.{◌≡◌, ◌<◌, ◌≤◌, [], length, IfSome};
ghost use Rattle.std.specs.List.{insert};
ghost use Rattle.refusal.specs.Checks.{afterwards};
ghost use Rattle.network.specs.Rows.{arc_of_row};
ghost use Rattle.network.specs.Touching.{Touched};
ghost use Rattle.network.specs.Changing.{ChangedIn};
ghost use Rattle.layer.specs.Bounds.{most_own};
ghost use Rattle.layer.specs.Keeping.{filled, own_arcs, RowAt, Insertion};

use network::rows::{change_in, touch_in};
use network::{Change, Row};
use refusal::{Part, Refusal};

// The most reaches that one layer may add.
pub const MOST_OWN: usize = 32;

// Why a reach is not put in.
#[derive(Clone, Copy, PartialEq, Eq, Debug)]
pub enum NotInserted {
    // no place is left
    NoPlace,
    // its place would be behind the end
    BehindTheEnd,
}

// Plain rows, of which the first `used` hold reaches, numbered from 0. (An array and a count, and no ArrayVec, which is not
// Copy.)
#[derive(Clone, Copy)]
pub struct OwnRows {
    rows: [Row; MOST_OWN],
    used: usize,
}

impl OwnRows {
    // No reach, and room for as many as a layer may add.
    #[tactic(auto, unfolding(crate::specs::Keeping::filled))]
    pub fn new() -> OwnRows
        ensures { own_arcs result ≡ [] }
    {
        OwnRows {
            rows: [Row::default(); MOST_OWN],
            used: 0,
        }
    }

    // How many reaches there are.
    #[tactic(auto, unfolding(crate::specs::Keeping::filled))]
    pub fn count(&self) -> usize
        ensures value { result ≡ length (own_arcs self.now) }
        ensures few { result ≤ most_own }
    {
        self.used.min(MOST_OWN)
    }

    // The rows that hold reaches.
    #[tactic(auto, unfolding(crate::specs::Keeping::filled))]
    fn filled(&self) -> &[Row]
        ensures { result.now ≡ filled self.now }
    {
        &self.rows[..self.count()]
    }

    // The row of reach e, if there is one.
    pub fn row(&self, e: usize) -> Option<Row>
        ensures { RowAt (own_arcs self.now) e result }
    {
        self.filled().get(e).copied()
    }

    // The lowest reach number from e on whose reach has the junction at an end, if there is one.
    #[tactic(auto, unfolding(crate::specs::Keeping::filled))]
    pub fn touch(&self, junction: u16, e: usize) -> Option<usize>
        ensures told { Touched junction (own_arcs self.now) e result }
        ensures few { IfSome result (λ i. i < most_own) }
    {
        touch_in(self.filled(), junction, e)
    }

    // Sets one number of reach e, for which the part answers.
    #[tactic(auto, unfolding(crate::specs::Keeping::filled))]
    pub fn change(&mut self, e: usize, change: Change, part: Part) -> Result<(), Refusal>
        ensures done { ChangedIn change (own_arcs self.old) (λ _. part) e result (own_arcs self.new) }
        ensures refused { self.new ≡ afterwards result self.new self.old }
    {
        let used = self.count();
        change_in(&mut self.rows[..used], e, change, part)
    }

    // Puts one more reach before reach `at`, or behind all where `at` is their number. The reaches from `at` on move up
    // by one number. Nothing is changed where there is no room or `at` is a higher number.
    #[tactic(auto, unfolding(crate::specs::Keeping::filled))]
    pub fn insert(&mut self, at: usize, row: Row) -> Result<(), NotInserted>
        ensures told { Insertion (length (own_arcs self.old)) at result }
        ensures own { own_arcs self.new ≡ afterwards result (insert (own_arcs self.old) at (arc_of_row row))
            (own_arcs self.old) }
        ensures refused { self.new ≡ afterwards result self.new self.old }
    {
        let used = self.count();
        if used == MOST_OWN {
            return Err(NotInserted::NoPlace);
        }
        if at > used {
            return Err(NotInserted::BehindTheEnd);
        }
        self.rows.copy_within(at..used, at + 1);
        self.rows[at] = row;
        self.used = used + 1;
        Ok(())
    }
}
