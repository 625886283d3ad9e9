ghost use Rattle.std.specs.Prelude.{◌≡◌, ◌↔◌, IsTrue};
ghost use Rattle.network.specs.Answers.{arc_in};
ghost use Rattle.network.specs.Touching.{Touches};
ghost use Rattle.network.specs.Rows.{arc_of_row};
ghost use Rattle.network.specs.Changing.{Remade};

use crate::bounds::HIGHEST_SETTING;
use crate::change::Change;
use crate::reach::Reach;
use refusal::{Fault, Part, Refusal};

// A row of a table: the four numbers of a reach, with nothing known of them. It is a type of its own beside `Reach`,
// which cannot hold all numbers, since a table is lent with anything in its rows.
#[derive(Clone, Copy, PartialEq, Eq, Debug, Default)]
pub struct Row {
    pub tail: u16,
    pub head: u16,
    pub limit: u32,
    pub carried: u32,
}

impl Row {
    // Whether the junction is the tail or the head.
    pub fn touches(self, junction: u16) -> bool
        ensures { IsTrue result ↔ Touches junction (arc_of_row self) }
    {
        self.tail == junction || self.head == junction
    }

    // The row with one of its numbers set, or the refusal of the part that answers for it. (Change and part are no struct:
    // the one says what is set and comes from the caller, the other who answers and comes from where the row stands.)
    pub fn change(self, change: Change, part: Part) -> Result<Row, Refusal>
        ensures { Remade change self part result }
    {
        match change {
            Change::Carry(amount) => {
                if amount > self.limit {
                    return Err(Refusal::new(Fault::AmountAboveLimit, part));
                }
                Ok(Row {
                    carried: amount,
                    ..self
                })
            }
            Change::Limit(q) => {
                if q > HIGHEST_SETTING {
                    return Err(Refusal::new(Fault::LimitTooHigh, part));
                }
                if q < self.carried {
                    return Err(Refusal::new(Fault::LimitBelowCarried, part));
                }
                Ok(Row { limit: q, ..self })
            }
        }
    }
}

impl From<Reach> for Row {
    ghost from_gives = { λ reach row. arc_of_row row ≡ arc_in reach };

    // The row that holds a reach.
    fn from(reach: Reach) -> Row {
        Row {
            tail: reach.tail,
            head: reach.head,
            limit: reach.limit,
            carried: reach.carried,
        }
    }
}
