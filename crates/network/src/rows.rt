// Calls on rows that hold reaches.
ghost use Rattle.network.specs.Rows.{arcs_in};
ghost use Rattle.network.specs.Changing.{ChangedIn, Written};
ghost use Rattle.network.specs.Touching.{Touched};

use crate::change::Change;
use crate::row::Row;
use refusal::{Fault, Part, Refusal};

// Sets one number of row k, for which the part answers.
pub fn change_in(rows: &mut [Row], k: usize, change: Change, part: Part) -> Result<(), Refusal>
    ensures done { ChangedIn change (arcs_in rows.old) (λ _. part) k result (arcs_in rows.new) }
    ensures rows { Written change rows.old k result rows.new }
{
    if k >= rows.len() {
        return Err(Refusal::new(Fault::NoReach, Part::Network));
    }
    rows[k] = rows[k].change(change, part)?;
    Ok(())
}

// The lowest number from k on of a row that has the junction at an end.
pub fn touch_in(rows: &[Row], junction: u16, k: usize) -> Option<usize>
    ensures { Touched junction (arcs_in rows.now) k result }
{
    rows.iter()
        .skip(k)
        .position(|row| row.touches(junction))
        .map(|i| k + i)
}
