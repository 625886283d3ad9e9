// A reader over the bytes of a drawing, which gives one record a call.
ghost use Rattle.std.specs.Prelude.{◌≡◌, ◌<◌, ◌≤◌, length, MatchResult};
ghost use Rattle.drawing.specs.Reading.{judged, verdict_of, Whole, FoundIn, rest_of, step_of, state_of, answer_of, start, too_long, Within, most_bytes};
ghost use Rattle.drawing.specs.Ahead.{ahead, drawn, refused, spoken, Leaves};
ghost use Rattle.drawing.specs.declared.kind.Stage.TheVariants as stages;
ghost use Rattle.drawing.specs.Order.{InOrder};
ghost use Rattle.drawing.specs.Spelling.{Covers, Tells};

use crate::kind::{Kind, Stage};
use crate::record::{RawRecord, Record};
use refusal::{Fault, Part, Refusal};

// The most bytes that an input may have.
pub const MOST_BYTES: usize = 65_536;

// A reader, and how far it has come in its input. (That `place` is within `input` is a clause of `next` and no ghost field:
// with one, a function over a desk, which holds a reader, and a network that holds a `&mut` gets no generated proof.)
#[derive(Clone, Copy)]
pub struct Reader<'a> {
    input: &'a [u8],
    // where the next record begins
    place: usize,
    stage: Stage,
    // how many junctions the shape stated, and 0 before it (no Option, and no part of the stage: nothing asks before the
    // shape, and afterwards all would have to take it apart)
    junctions: u16,
}

impl<'a> Reader<'a> {
    // A reader at the start of the input, which is refused where it is too long.
    #[tactic(auto, using(crate::proofs::Spelled::covers, crate::proofs::Ordered::in_order), unfolding(crate::specs::Ahead::drawn))]
    pub fn open(input: &'a [u8]) -> Result<Reader<'a>, Refusal>
        ensures long { MatchResult result (λ _. length input.now ≤ most_bytes) (λ _. most_bytes < length input.now) }
        ensures ahead { MatchResult result (λ o. ahead o ≡ drawn input.now) (λ e. refused e ≡ drawn input.now) }
        ensures state { MatchResult result (λ o. (o.input ≡ input.entry) × (state_of o ≡ start)) (λ e. e ≡ too_long) }
        ensures covers { Covers (drawn input.now) input.now 0 }
        ensures order { InOrder stages.Start (drawn input.now) }
    {
        if input.len() > MOST_BYTES {
            return Err(Refusal::new(Fault::InputTooLong, Part::Reader).at(0));
        }
        Ok(Reader {
            input,
            place: 0,
            stage: Stage::Start,
            junctions: 0,
        })
    }

    // The bytes from the next record on, if there are any.
    fn rest(&self) -> &'a [u8]
        ensures { result.now ≡ rest_of self.now }
    {
        self.input.get(self.place..).unwrap_or(&[])
    }

    // The next record and the stage after it, nothing at an allowed end, or the first fault.
    fn judge(&self) -> Result<Option<(RawRecord<'a>, Stage)>, Fault>
        ensures value { verdict_of result ≡ judged (rest_of self.now) self.now.stage self.now.junctions }
        ensures whole { Whole (verdict_of result) (rest_of self.now) }
        ensures bytes { FoundIn result (rest_of self.now) }
    {
        let rest = self.rest();
        let Some(letter) = rest.first() else {
            return if self.stage.may_end() {
                Ok(None)
            } else {
                Err(Fault::EndsEarly)
            };
        };
        let kind = Kind::try_from(*letter)?;
        let stage = self.stage.after(kind).ok_or(Fault::ByteNotAllowed)?;
        let bytes = rest.get(..kind.length()).ok_or(Fault::EndsEarly)?;
        let raw = RawRecord { kind, bytes };
        raw.check(self.junctions)?;
        Ok(Some((raw, stage)))
    }

    // The next record, or nothing at the end of the drawing.
    pub fn next(&mut self) -> Result<Option<Record<'a>>, Refusal>
        ensures input { self.new.input ≡ self.old.input }
        ensures answer { (answer_of result, state_of self.new) ≡ step_of self.old }
        ensures ahead { ahead self.old ≡ spoken (answer_of result) self.old.place (ahead self.new) }
        ensures leaves { Leaves (answer_of result) self.old self.new }
        ensures within { Within self.old → Within self.new }
        ensures tells { Tells (answer_of result) self.old.input.now self.old.place self.new.place }
    {
        match self.judge() {
            Err(fault) => Err(Refusal::new(fault, Part::Reader).at(self.place)),
            Ok(None) => Ok(None),
            Ok(Some((raw, stage))) => {
                let record = raw.read(self.place);
                self.place += raw.bytes.len();
                self.stage = stage;
                self.junctions = record.junctions_after(self.junctions);
                Ok(Some(record))
            }
        }
    }

    // The place of the next record: the index in the input of its letter.
    pub fn place(&self) -> usize
        ensures { result ≡ self.now.place }
    {
        self.place
    }
}
