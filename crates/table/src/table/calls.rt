// The calls of a table as a network.
ghost use Rattle.std.specs.Prelude.{◌≡◌, ℕ};
ghost use Rattle.network.specs.Changing.{Changed, Written};
ghost use Rattle.table.specs.Tables.{table_net, table_sound, table_giver};

use crate::table::Table;
use network::rows::{change_in, touch_in};
use network::{Change, Network, Reach, Size};
use refusal::{Fault, Part, Refusal};

impl<'a> Network for Table<'a> {
    ghost meaning = { table_net };

    ghost sound = { table_sound };

    ghost giver = { table_giver };

    fn size(&self) -> Size {
        self.laid.size
    }

    fn reach(&self, k: usize) -> Result<Reach, Refusal> {
        let refusal = Refusal::new(Fault::NoReach, Part::Network);
        let row = self.laid.rows[..self.laid.size.reaches]
            .get(k)
            .ok_or(refusal)?;
        // No row that was laid breaks a bound.
        Ok(Reach::try_from(*row).unwrap())
    }

    fn touch(&self, junction: u16, k: usize) -> Option<usize> {
        touch_in(&self.laid.rows[..self.laid.size.reaches], junction, k)
    }

    // Writes the one row, whole, and no other row of the lent table.
    fn change(&mut self, k: usize, change: Change) -> Result<(), Refusal>
        ensures done { Changed change (table_net self.old) (table_giver self.old) k result
            (table_net self.new) }
        ensures giver { (j : ℕ) → table_giver self.new j ≡ table_giver self.old j }
        ensures rows { Written change self.old.laid.rows.now k result self.new.laid.rows.now }
        ensures lender { self.new.laid.rows.ghost_name ≡ self.old.laid.rows.ghost_name }
    {
        let draft = &mut self.laid;
        let used = draft.size.reaches;
        change_in(&mut draft.rows[..used], k, change, Part::Network)
    }
}
