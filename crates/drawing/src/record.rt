// One record, and how its bytes are read.
ghost use Rattle.std.specs.Prelude.{◌≡◌, ◌+◌, ◌^◌, ◌<◌, ◌≤◌, length};
ghost use Rattle.std.specs.Result.{result_err};
ghost use Rattle.drawing.specs.Numbers.{field};
ghost use Rattle.drawing.specs.Kinds.{length_of};
ghost use Rattle.drawing.specs.Records.{stated, said, spelt, printed, wrong_name, wrong, junctions_after};

use crate::kind::Kind;
use refusal::Fault;

// What one record says.
#[derive(Clone, Copy)]
pub enum Record<'a> {
    Shape {
        junctions: u16,
        intake: u16,
        outfall: u16,
    },
    // `place` is the index in the input of the name's first byte
    Name {
        junction: u16,
        name: &'a [u8],
        place: usize,
    },
    Reach {
        tail: u16,
        head: u16,
        limit: u32,
    },
    End,
    Chamber {
        junction: u16,
        limit: u32,
    },
    Source {
        junction: u16,
        limit: Option<u32>,
    },
    Sink {
        junction: u16,
        limit: Option<u32>,
    },
    Limit {
        reach: u16,
        limit: u32,
    },
    Settle {
        budget: u32,
    },
    Drain,
    Bottleneck,
    Tally,
}

impl<'a> Record<'a> {
    // How many junctions the drawing has from this record on, of so many before it.
    pub(crate) fn junctions_after(self, before: u16) -> u16
        ensures { result ≡ junctions_after (said self.entry) before }
    {
        match self {
            Record::Shape { junctions, .. } => junctions,
            _ => before,
        }
    }
}

// All the bytes of a record, its letter included, which are still to be read.
#[derive(Clone, Copy)]
pub(crate) struct RawRecord<'a> {
    pub(crate) kind: Kind,
    pub(crate) bytes: &'a [u8],
    ghost whole: { length bytes.now ≡ length_of kind },
}

// Whether each byte may stand in a name.
fn is_printed(name: &[u8]) -> bool
    ensures { result ≡ printed name.now }
{
    name.iter().all(u8::is_ascii_graphic)
}

// The limit that the number states, if it states one.
fn stated_limit(number: u32) -> Option<u32>
    ensures { result ≡ stated number }
{
    (number != 0xffff_ffff).then_some(number)
}

impl<'a> RawRecord<'a> {
    // The bytes of the field that begins at `i`.
    fn field<const W: usize>(&self, i: usize) -> [u8; W]
        requires { i + W ≤ length_of self.now.kind }
        ensures { result ≡ field i W self.now.bytes.now }
    {
        *self.bytes[i..].first_chunk().unwrap()
    }

    // Checks the fields of a name, in a drawing of so many junctions.
    fn check_name(&self, junctions: u16) -> Result<(), Fault>
        requires { self.now.kind ≡ Kind.Name }
        ensures { result_err result ≡ wrong_name self.now.bytes.now junctions }
    {
        if u16::from_be_bytes(self.field(1)) >= junctions {
            return Err(Fault::NoJunction);
        }
        if !is_printed(&self.bytes[3..]) {
            return Err(Fault::ByteNotAllowed);
        }
        Ok(())
    }

    // Checks the fields of the record, in a drawing of so many junctions.
    pub(crate) fn check(&self, junctions: u16) -> Result<(), Fault>
        ensures { result_err result ≡ wrong self.now.kind self.now.bytes.now junctions }
    {
        match self.kind {
            Kind::Name => self.check_name(junctions),
            _ => Ok(()),
        }
    }

    // What the record says, which stands at this place of the input.
    pub(crate) fn read(&self, place: usize) -> Record<'a>
        requires { place + length self.now.bytes.now < 2 ^ 64 }
        ensures { said result ≡ spelt self.now.kind self.now.bytes.now place }
    {
        match self.kind {
            Kind::Shape => Record::Shape {
                junctions: u16::from_be_bytes(self.field(1)),
                intake: u16::from_be_bytes(self.field(3)),
                outfall: u16::from_be_bytes(self.field(5)),
            },
            Kind::Name => Record::Name {
                junction: u16::from_be_bytes(self.field(1)),
                name: &self.bytes[3..],
                place: place + 3,
            },
            Kind::Reach => Record::Reach {
                tail: u16::from_be_bytes(self.field(1)),
                head: u16::from_be_bytes(self.field(3)),
                limit: u32::from_be_bytes(self.field(5)),
            },
            Kind::End => Record::End,
            Kind::Chamber => Record::Chamber {
                junction: u16::from_be_bytes(self.field(1)),
                limit: u32::from_be_bytes(self.field(3)),
            },
            Kind::Source => Record::Source {
                junction: u16::from_be_bytes(self.field(1)),
                limit: stated_limit(u32::from_be_bytes(self.field(3))),
            },
            Kind::Sink => Record::Sink {
                junction: u16::from_be_bytes(self.field(1)),
                limit: stated_limit(u32::from_be_bytes(self.field(3))),
            },
            Kind::Limit => Record::Limit {
                reach: u16::from_be_bytes(self.field(1)),
                limit: u32::from_be_bytes(self.field(3)),
            },
            Kind::Settle => Record::Settle {
                budget: u32::from_be_bytes(self.field(1)),
            },
            Kind::Drain => Record::Drain,
            Kind::Bottleneck => Record::Bottleneck,
            Kind::Tally => Record::Tally,
        }
    }
}
