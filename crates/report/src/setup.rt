// From the bytes of a drawing to a desk over its network.
ghost use Rattle.std.specs.Prelude.{◌≡◌, [], ◌∷◌, length, Ok, Err, ◌≢◌};
ghost use Rattle.table.specs.Laid.{places_in};
ghost use Rattle.table.specs.Drafting.{draft_net};
ghost use Rattle.gathering.specs.Standing.{gathering_net, gathering_giver};
ghost use Rattle.naming.specs.Keeping.{names_in};
ghost use Rattle.drawing.specs.Records.{said, table_end};
ghost use Rattle.drawing.specs.Ahead.{ahead, drawn};
ghost use Rattle.desk.specs.Lines.{refusal_line};
ghost use Rattle.report.specs.Reported.{draft_lines, reported};
ghost use Rattle.report.specs.Laws.{ToldOnce};
ghost use Rattle.report.specs.Accounts.{Accounted};
ghost use Rattle.report.specs.Most.{MostTold};
ghost use Rattle.report.specs.Adding.{AddsUp};
ghost use Rattle.report.specs.Setups.{Entered, table_lines};
ghost use Rattle.desk.specs.Rest.{rest};

use chambers::Chambers;
use desk::Desk;
use drawing::{Reader, Record};
use entries::{enter_chambers, enter_feeders};
use gathering::Gathering;
use naming::Names;
use network::Row;
use refusal::{Fault, Part, Refusal, located};
use routes::Search;
use table::{Draft, Table};

// Enters one record of the table, which is not its end, into the draft, and a name among the names. (Its place is apart from
// it: it is the reader's, and only a refusal gets it.)
fn enter<'a>(
    draft: &mut Draft<'_>,
    names: &mut Names<'a>,
    item: Record<'a>,
    place: usize,
) -> Result<(), Refusal>
    requires { said item ≢ table_end }
    ensures net { Entered (places_in draft.old.rows.now) (said item.entry) place
        (draft_net draft.old) (names_in names.old) result (draft_net draft.new) (names_in names.new) }
    ensures len { length draft.new.rows.now ≡ length draft.old.rows.now }
    ensures lender { draft.new.rows.ghost_name ≡ draft.old.rows.ghost_name }
{
    match item {
        Record::Shape {
            junctions,
            intake,
            outfall,
        } => located(draft.shape(junctions, intake, outfall), place),
        Record::Reach { tail, head, limit } => located(draft.lay(tail, head, limit), place),
        Record::Name { junction, name, .. } => {
            names.give(junction, name);
            Ok(())
        }
        _ => Err(Refusal::new(Fault::ByteNotAllowed, Part::Reader).at(place)),
    }
}

// Reads the records of the table into the draft and the names, up to the table's end.
fn lay_table<'a>(
    reader: &mut Reader<'a>,
    draft: &mut Draft<'_>,
    names: &mut Names<'a>,
) -> Result<(), Refusal>
    ensures lines { draft_lines (places_in draft.old.rows.now) (ahead reader.old) (draft_net draft.old) (names_in names.old)
        ≡ table_lines result (ahead reader.new) (draft_net draft.new) (names_in names.new) }
    ensures lender { draft.new.rows.ghost_name ≡ draft.old.rows.ghost_name }
{
    'reading: loop {
        let place = reader.place();
        match reader.next()? {
            Some(Record::End) => return Ok(()),
            Some(item) => enter(draft, names, item, place)?,
            None => return Err(Refusal::new(Fault::EndsEarly, Part::Reader).at(place)),
        }
    }
}

// The network of a drawing: its table, the chambers over it, and the sources and sinks over those.
pub type Stack<'t> = Gathering<Chambers<Table<'t>>>;

// Reads the table of a drawing into the rows, commissions its network, puts the layers over it, and gives the desk that
// answers its commands by this search and shows junctions by the names in the table; or the refusal that is then the only
// line. What the lines are does not depend on the search.
pub fn open<'a, 't, S: Search + Default + Drop>(
    input: &'a [u8],
    rows: &'t mut [Row],
    search: S,
) -> Result<Desk<'a, Stack<'t>, S>, Refusal>
    ensures lines { reported (places_in rows.old) input.now
        ≡ elim result [ Ok d ↦ rest gathering_net gathering_giver d | Err e ↦ refusal_line e ∷ [] ] }
    ensures once { ToldOnce (drawn input.now) (reported (places_in rows.old) input.now) }
    ensures account { Accounted (drawn input.now) (reported (places_in rows.old) input.now) }
    ensures most { MostTold (drawn input.now) (reported (places_in rows.old) input.now) }
    ensures adds { AddsUp (reported (places_in rows.old) input.now) }
{
    let mut reader = Reader::open(input)?;
    let mut draft = Draft::new(rows);
    let mut names = Names::none();
    lay_table(&mut reader, &mut draft, &mut names)?;
    let mut chambers = Chambers::new(draft.commission());
    enter_chambers(&mut reader, &mut chambers)?;
    let mut gathering = Gathering::new(chambers);
    enter_feeders(&mut reader, &mut gathering)?;
    Ok(Desk::new(reader, gathering, search, names))
}
