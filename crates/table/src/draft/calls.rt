// The calls of a draft.
ghost use Rattle.std.specs.Prelude.{◌≡◌, length, slice_set};
ghost use Rattle.refusal.specs.Checks.{Judged, afterwards};
ghost use Rattle.table.specs.Laid.{places_in};
ghost use Rattle.table.specs.Drafting.{draft_net, fresh, shape_checks, with_shape, lay_checks, with_reach, laid_row};
ghost use Rattle.table.specs.Tables.{table_net};

use crate::draft::Draft;
use crate::table::Table;
use network::bounds::HIGHEST_SETTING;
use network::{Row, Size};
use refusal::{Fault, Part, Refusal};

// The most junctions that a shape may have, and the most rows of a table that are used.
const MOST_DRAFTED: u16 = 256;

const MOST_ROWS: usize = 1024;

impl<'a> Draft<'a> {
    // A draft over a table, whatever its rows hold: two junctions, intake 0, outfall 1 and no reach.
    pub fn new(rows: &'a mut [Row]) -> Draft<'a>
        ensures net { draft_net result ≡ fresh }
        ensures rows { result.rows.now ≡ rows.old }
        ensures lender { result.rows.ghost_name ≡ rows.entry.ghost_name }
    {
        Draft {
            rows,
            size: Size {
                junctions: 2,
                reaches: 0,
                intake: 0,
                outfall: 1,
            },
        }
    }

    // Sets the number of junctions, the intake and the outfall. Refuses 1, 2, 3 and 14. Writes no row.
    pub fn shape(&mut self, n: u16, intake: u16, outfall: u16) -> Result<(), Refusal>
        ensures judged { Judged (shape_checks (draft_net self.old) n intake outfall) result }
        ensures net { draft_net self.new ≡ afterwards result
            (with_shape (draft_net self.old) n intake outfall) (draft_net self.old) }
        ensures rows { self.new.rows.now ≡ self.old.rows.now }
        ensures lender { self.new.rows.ghost_name ≡ self.old.rows.ghost_name }
    {
        if n < 2 || n > MOST_DRAFTED {
            return Err(Refusal::new(Fault::JunctionCount, Part::Draft));
        }
        if intake >= n || outfall >= n {
            return Err(Refusal::new(Fault::NoJunction, Part::Draft));
        }
        if intake == outfall {
            return Err(Refusal::new(Fault::Same, Part::Draft));
        }
        if self.size.reaches > 0 {
            return Err(Refusal::new(Fault::TooLate, Part::Draft));
        }
        self.size = Size {
            junctions: n,
            intake,
            outfall,
            ..self.size
        };
        Ok(())
    }

    // Lays a reach that carries nothing in the next row, whole, and writes no other row. Refuses 2, 3, 5 and 8.
    pub fn lay(&mut self, tail: u16, head: u16, limit: u32) -> Result<(), Refusal>
        ensures judged { Judged
            (lay_checks (draft_net self.old) (places_in self.old.rows.now) tail head limit) result }
        ensures net { draft_net self.new ≡ afterwards result
            (with_reach (draft_net self.old) tail head limit) (draft_net self.old) }
        ensures rows { self.new.rows.now ≡ afterwards result
            (slice_set self.old.rows.now (length (draft_net self.old).reaches) (laid_row tail head limit))
            self.old.rows.now }
        ensures lender { self.new.rows.ghost_name ≡ self.old.rows.ghost_name }
    {
        if tail >= self.size.junctions || head >= self.size.junctions {
            return Err(Refusal::new(Fault::NoJunction, Part::Draft));
        }
        if tail == head {
            return Err(Refusal::new(Fault::Same, Part::Draft));
        }
        if limit > HIGHEST_SETTING {
            return Err(Refusal::new(Fault::LimitTooHigh, Part::Draft));
        }
        if self.size.reaches >= self.rows.len().min(MOST_ROWS) {
            return Err(Refusal::new(Fault::NoPlace, Part::Draft));
        }
        self.rows[self.size.reaches] = Row {
            tail,
            head,
            limit,
            carried: 0,
        };
        self.size.reaches += 1;
        Ok(())
    }

    // Uses the draft up and gives the network that it has come to.
    pub fn commission(self) -> Table<'a>
        ensures net { table_net result ≡ draft_net self.entry }
        ensures rows { result.laid.rows.now ≡ self.entry.rows.now }
        ensures lender { result.laid.rows.ghost_name ≡ self.entry.rows.ghost_name }
    {
        Table { laid: self }
    }
}
