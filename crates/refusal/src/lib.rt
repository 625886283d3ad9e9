// Refusals: the fourteen numbered reasons for which a call turns its input down, the part of the software that
// gives a refusal, and its place in the input where it has one.
#![tactic(auto)]

ghost use Rattle.std.specs.Prelude.{◌≡◌, Some};
ghost use Rattle.refusal.specs.Numbers.{number_of, word_of};
ghost use Rattle.refusal.specs.Texts.{place_text, refusal_text};
ghost use Rattle.refusal.specs.Checks.{unplaced, placed_at, located_at};
ghost use Rattle.refusal.specs.Laws.{OneAnswer};

use std::fmt;

// Why a call refuses, with the number of each refusal. `number_of` in specs/Numbers.antt says when each applies.
#[derive(Clone, Copy, PartialEq, Eq, Debug)]
pub enum Fault {
    JunctionCount = 1,
    NoJunction = 2,
    Same = 3,
    NoReach = 4,
    LimitTooHigh = 5,
    LimitBelowCarried = 6,
    AmountAboveLimit = 7,
    NoPlace = 8,
    StackTooLarge = 9,
    RouteExists = 10,
    ByteNotAllowed = 11,
    EndsEarly = 12,
    InputTooLong = 13,
    TooLate = 14,
}

impl Fault {
    // The number of the refusal, from 1 to 14.
    pub fn number(self) -> u8
        ensures { result ≡ number_of self }
    {
        self as u8
    }
}

// The part of the software that gives a refusal.
#[derive(Clone, Copy, PartialEq, Eq, Debug)]
pub enum Part {
    Reader,
    Draft,
    Chambers,
    Gathering,
    Network,
}

impl Part {
    // The word for the part.
    pub fn word(self) -> &'static str
        ensures { result.now ≡ word_of self }
    {
        match self {
            Part::Reader => "reader",
            Part::Draft => "draft",
            Part::Chambers => "chambers",
            Part::Gathering => "gathering",
            Part::Network => "network",
        }
    }
}

impl fmt::Display for Part {
    ghost output = { λ p. Some (word_of p) };

    fn fmt<W: fmt::Write>(&self, f: &mut fmt::Formatter<W>) -> fmt::Result {
        f.write_str(self.word())
    }
}

// A refusal: why, the byte place of the record where there is one, and the part that gives it.
#[derive(Clone, Copy, PartialEq, Eq, Debug)]
pub struct Refusal {
    pub fault: Fault,
    pub place: Option<usize>,
    pub part: Part,
}

impl Refusal {
    // A refusal of a library call, which knows no place.
    pub fn new(fault: Fault, part: Part) -> Refusal
        ensures { result ≡ unplaced fault part }
    {
        Refusal {
            fault,
            place: None,
            part,
        }
    }

    // The same refusal, of the record at this place.
    pub fn at(self, place: usize) -> Refusal
        ensures { result ≡ placed_at self place }
    {
        Refusal {
            place: Some(place),
            ..self
        }
    }
}

// An answer with the place of the record that was refused.
pub fn located<T>(answer: Result<T, Refusal>, place: usize) -> Result<T, Refusal>
    ensures { result ≡ located_at answer place }
{
    answer.map_err(|refusal| refusal.at(place))
}

// The words that tell a place, if there is one.
#[derive(Clone, Copy)]
struct At(Option<usize>);

impl fmt::Display for At {
    ghost output = { λ a. Some (place_text a.0) };

    fn fmt<W: fmt::Write>(&self, f: &mut fmt::Formatter<W>) -> fmt::Result {
        match self.0 {
            Some(place) => write!(f, " at {place}"),
            None => Ok(()),
        }
    }
}

impl fmt::Display for Refusal {
    ghost output = { λ e. Some (refusal_text (number_of e.fault) e.place e.part) };

    fn fmt<W: fmt::Write>(&self, f: &mut fmt::Formatter<W>) -> fmt::Result {
        write!(
            f,
            "refused {}{} in {}",
            self.fault.number(),
            At(self.place),
            self.part
        )
    }
}

// A refusal's number tells its fault, and a call's checks leave it one answer.
pub fn one_answer_stands() -> u8
    ensures { OneAnswer }
{
    0
}
