// A refusal, as it crosses to C.
ghost use Rattle.std.specs.Prelude.{◌≡◌};
ghost use Rattle.allocate_c.specs.Numbering.{part_number};
ghost use Rattle.allocate_c.specs.Telling.{told_as};

use refusal::{Part, Refusal};

// The number of a refusal, from 1 to 14; that of the part that gives it; whether a place is known, 1 or 0; and that place,
// or 0. (A number and no `bool` says whether it is known: whatever bytes a caller lends, each is one.)
#[repr(C)]
#[derive(Drop)]
pub struct AllocateRefusal {
    pub number: u8,
    pub part: u8,
    pub has_place: u8,
    pub place: usize,
}

// The number of a part.
fn part_number(part: Part) -> u8
    ensures { result ≡ part_number part }
{
    match part {
        Part::Reader => 0,
        Part::Draft => 1,
        Part::Chambers => 2,
        Part::Gathering => 3,
        Part::Network => 4,
    }
}

// A refusal of the library, as it crosses.
pub fn told(refusal: Refusal) -> AllocateRefusal
    ensures { result ≡ told_as refusal }
{
    AllocateRefusal {
        number: refusal.fault.number(),
        part: part_number(refusal.part),
        has_place: u8::from(refusal.place.is_some()),
        place: refusal.place.unwrap_or(0),
    }
}
