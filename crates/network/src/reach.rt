ghost use Rattle.std.specs.Prelude.{◌≤◌};
ghost use Rattle.flow.specs.Bounds.{highest_limit};

use crate::bounds::HIGHEST_LIMIT;
use crate::row::Row;

// The record of a reach: the junction that it leaves, the junction that it enters, its limit and the amount that it
// carries. No record exists that carries more than its limit, or whose limit is above the highest.
#[derive(Clone, Copy)]
pub struct Reach {
    pub tail: u16,
    pub head: u16,
    pub limit: u32,
    pub carried: u32,
    ghost within: { carried ≤ limit },
    ghost bounded: { limit ≤ highest_limit },
}

// A way along a reach: from its tail to its head, or back.
#[derive(Clone, Copy, PartialEq, Eq, Debug)]
pub enum Way {
    Forth,
    Back,
}

// A bound of records that a row breaks.
#[derive(Clone, Copy, PartialEq, Eq, Debug)]
pub enum BrokenBound {
    CarriedAboveLimit,
    LimitTooHigh,
}

impl Reach {
    ghost use Rattle.std.specs.Prelude.{◌≡◌, ◌↔◌, IsTrue};
    ghost use Rattle.flow.specs.Steps.{begins_at, finishes_at, headroom_at};
    ghost use Rattle.network.specs.Answers.{arc_in, is_back};
    ghost use Rattle.network.specs.Touching.{Touches};

    // The junction at which a step along this reach begins.
    pub fn begin(self, way: Way) -> u16
        ensures { result ≡ begins_at (is_back way) (arc_in self) }
    {
        match way {
            Way::Forth => self.tail,
            Way::Back => self.head,
        }
    }

    // The junction at which it finishes.
    pub fn finish(self, way: Way) -> u16
        ensures { result ≡ finishes_at (is_back way) (arc_in self) }
    {
        match way {
            Way::Forth => self.head,
            Way::Back => self.tail,
        }
    }

    // How much more it can take: forth what is left of the limit, back what is carried.
    pub fn headroom(self, way: Way) -> u32
        ensures { result ≡ headroom_at (is_back way) (arc_in self) }
    {
        match way {
            Way::Forth => self.limit - self.carried,
            Way::Back => self.carried,
        }
    }

    // Whether the junction is the tail or the head.
    pub fn touches(self, junction: u16) -> bool
        ensures { IsTrue result ↔ Touches junction (arc_in self) }
    {
        Row::from(self).touches(junction)
    }
}

impl TryFrom<Row> for Reach {
    type Error = BrokenBound;

    ghost use Rattle.network.specs.Rows.{Checked};

    ghost try_from_gives = { Checked };

    // The record of the reach in this row, or the bound that the row breaks.
    fn try_from(row: Row) -> Result<Reach, BrokenBound> {
        if row.carried > row.limit {
            return Err(BrokenBound::CarriedAboveLimit);
        }
        if row.limit > HIGHEST_LIMIT {
            return Err(BrokenBound::LimitTooHigh);
        }
        Ok(Reach {
            tail: row.tail,
            head: row.head,
            limit: row.limit,
            carried: row.carried,
        })
    }
}
