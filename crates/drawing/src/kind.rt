// The kinds of record, and the order that they come in.
ghost use Rattle.std.specs.Prelude.{◌≡◌};
ghost use Rattle.drawing.specs.Kinds.{Decodes, length_of, follows, ends};

use refusal::Fault;

// What a record is.
#[derive(Clone, Copy, PartialEq, Eq, Debug)]
pub enum Kind {
    Shape,
    Name,
    Reach,
    End,
    Chamber,
    Source,
    Sink,
    Limit,
    Settle,
    Drain,
    Bottleneck,
    Tally,
}

// How far a drawing has come, and so what may come next.
#[derive(Clone, Copy, PartialEq, Eq, Debug)]
pub enum Stage {
    // nothing was read: the shape comes next
    Start,
    // names and reaches, up to the end of the table
    Table,
    // chambers, then all that follows them
    Chambers,
    // sources and sinks, then commands
    Gathering,
    // commands only
    Commands,
}

// The kind whose letter this is.
impl TryFrom<u8> for Kind {
    type Error = Fault;

    ghost try_from_gives = { Decodes };

    fn try_from(letter: u8) -> Result<Kind, Fault> {
        match letter {
            b'H' => Ok(Kind::Shape),
            b'N' => Ok(Kind::Name),
            b'R' => Ok(Kind::Reach),
            b'E' => Ok(Kind::End),
            b'C' => Ok(Kind::Chamber),
            b'I' => Ok(Kind::Source),
            b'O' => Ok(Kind::Sink),
            b'L' => Ok(Kind::Limit),
            b'S' => Ok(Kind::Settle),
            b'D' => Ok(Kind::Drain),
            b'B' => Ok(Kind::Bottleneck),
            b'T' => Ok(Kind::Tally),
            _ => Err(Fault::ByteNotAllowed),
        }
    }
}

impl Kind {
    // The bytes of a record of this kind, its letter included.
    pub fn length(self) -> usize
        ensures { result ≡ length_of self }
    {
        match self {
            Kind::Name => 11,
            Kind::Reach => 9,
            Kind::Shape | Kind::Chamber | Kind::Source | Kind::Sink | Kind::Limit => 7,
            Kind::Settle => 5,
            Kind::End | Kind::Drain | Kind::Bottleneck | Kind::Tally => 1,
        }
    }
}

impl Stage {
    // The stage after a record of this kind, or nothing where the kind has no place.
    pub fn after(self, kind: Kind) -> Option<Stage>
        ensures { result ≡ follows self kind }
    {
        match (self, kind) {
            (Stage::Start, Kind::Shape) => Some(Stage::Table),
            (Stage::Table, Kind::Name | Kind::Reach) => Some(Stage::Table),
            (Stage::Table, Kind::End) => Some(Stage::Chambers),
            (Stage::Chambers, Kind::Chamber) => Some(Stage::Chambers),
            (Stage::Chambers | Stage::Gathering, Kind::Source | Kind::Sink) => {
                Some(Stage::Gathering)
            }
            (
                Stage::Chambers | Stage::Gathering | Stage::Commands,
                Kind::Limit | Kind::Settle | Kind::Drain | Kind::Bottleneck | Kind::Tally,
            ) => Some(Stage::Commands),
            _ => None,
        }
    }

    // Whether the input may end here.
    pub fn may_end(self) -> bool
        ensures { result ≡ ends self }
    {
        !matches!(self, Stage::Start | Stage::Table)
    }
}
