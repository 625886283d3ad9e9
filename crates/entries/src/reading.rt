// Entries are read one at a time, each carried out before the next is read. A record that is no entry of the layer is
// left to the reader, as is a refusal of the reader's own: whoever reads on meets it. The loops for the two layers are
// two: they take other records and hand on other numbers, and a trait over both would be longer than one of them.
ghost use Rattle.std.specs.Prelude.{◌≡◌};
ghost use Rattle.naming.specs.Names.{Naming};
ghost use Rattle.drawing.specs.Ahead.{ahead};
ghost use Rattle.desk.specs.Lines.{going_on};
ghost use Rattle.desk.specs.Commands.{asked};
ghost use Rattle.desk.specs.Answering.{opened_lines};
ghost use Rattle.layer.specs.Keeping.{own_arcs};
ghost use Rattle.chambers.specs.Standing.{chambers_net, chambers_giver};
ghost use Rattle.gathering.specs.Entering.{no_feeders};
ghost use Rattle.gathering.specs.Standing.{feeders_of, gathering_net, gathering_giver};
ghost use Rattle.entries.specs.Entered.{chamber_lines, feeder_lines};
ghost use Rattle.entries.specs.Leaving.{chambers_entered, feeders_entered};

use chambers::Chambers;
use drawing::{Reader, Record};
use gathering::{Gathering, Role};
use network::Network;
use refusal::{Refusal, located};

// Enters the chambers that the reader has next, up to another record.
pub fn enter_chambers<N: Network>(
    reader: &mut Reader<'_>,
    layer: &mut Chambers<N>,
) -> Result<(), Refusal>
    ensures below { layer.new.extended.below ≡ layer.old.extended.below }
    ensures lines { (names : Naming) → chamber_lines names (ahead reader.old) (N.meaning layer.old.extended.below)
        (N.giver layer.old.extended.below) (own_arcs layer.old.extended.own)
        ≡ going_on result (feeder_lines names (ahead reader.new) (chambers_net layer.new) (chambers_giver layer.new)
        no_feeders) }
    ensures left { (ahead reader.new, own_arcs layer.new.extended.own)
        ≡ chambers_entered (ahead reader.old) (N.meaning layer.old.extended.below) (own_arcs layer.old.extended.own) }
{
    'reading: loop {
        let place = reader.place();
        let mut next = *reader;
        match next.next() {
            Ok(Some(Record::Chamber { junction, limit })) => {
                located(layer.enter(junction, limit), place)?;
            }
            _ => return Ok(()),
        }
        *reader = next;
    }
}

// Enters the sources and sinks that the reader has next, up to another record.
pub fn enter_feeders<N: Network>(
    reader: &mut Reader<'_>,
    layer: &mut Gathering<N>,
) -> Result<(), Refusal>
    ensures below { layer.new.extended.below ≡ layer.old.extended.below }
    ensures lines { (names : Naming) → feeder_lines names (ahead reader.old) (N.meaning layer.old.extended.below)
        (N.giver layer.old.extended.below) (feeders_of layer.old)
        ≡ going_on result (opened_lines names (asked (ahead reader.new)) (gathering_giver layer.new)
        (gathering_net layer.new)) }
    ensures left { (ahead reader.new, feeders_of layer.new)
        ≡ feeders_entered (ahead reader.old) (N.meaning layer.old.extended.below) (feeders_of layer.old) }
{
    'reading: loop {
        let place = reader.place();
        let mut next = *reader;
        let (role, junction, limit) = match next.next() {
            Ok(Some(Record::Source { junction, limit })) => (Role::Source, junction, limit),
            Ok(Some(Record::Sink { junction, limit })) => (Role::Sink, junction, limit),
            _ => return Ok(()),
        };
        located(layer.enter(role, junction, limit), place)?;
        *reader = next;
    }
}
