// Asking for the bottleneck: by the call of crate `marking`, and by `perform` with a search.
ghost use Rattle.std.specs.Prelude.{◌≤◌};

use crate::checksum::Checksum;
use marking::{Bottleneck, bottleneck};
use network::Network;
use performing::{Answer, Call, perform};
use refusal::{Fault, Part, Refusal};
use routes::Search;

// As many marks as a network can have junctions.
const MARKS: usize = 512;

// What the marks hold before they are written. No bottleneck writes it.
const BLANK: [u8; MARKS] = [9; MARKS];

// What the call answered, and the marks after it.
#[derive(Clone, Copy)]
pub struct Asked {
    pub answer: Result<Bottleneck, Refusal>,
    marks: [u8; MARKS],
}

// Whether `perform` answered what the call answered.
fn is_same_answer(performed: Result<Answer, Refusal>, answer: Result<Bottleneck, Refusal>) -> bool {
    match performed {
        Ok(Answer::Bottleneck(one)) => answer == Ok(one),
        Ok(_) => false,
        Err(one) => answer == Err(one),
    }
}

// Asks for the bottleneck with so many marks.
fn ask_with<N: Network>(net: &N, count: usize) -> Asked {
    let mut marks = BLANK;
    let answer = bottleneck(net, &mut marks[..count.min(MARKS)]);
    Asked { answer, marks }
}

// Asks for the bottleneck with as many marks as there are.
pub fn ask<N: Network>(net: &N) -> Asked {
    ask_with(net, MARKS)
}

impl Asked {
    // Asks for the bottleneck of another network by `perform`, with a search, and says whether answer and marks are the same.
    pub fn is_same_by<N: Network, S: Search>(&self, net: &mut N, search: S) -> (S, bool) {
        let mut marks = BLANK;
        let (search, performed) = perform(net, search, Call::Bottleneck, &mut marks);
        let is_same = is_same_answer(performed, self.answer) && marks == self.marks;
        (search, is_same)
    }

    // How many marks of n junctions the call was to write: none where it was refused.
    fn written(&self, n: u16) -> usize
        ensures { result ≤ 512 }
    {
        match self.answer {
            Ok(_) => usize::from(n).min(MARKS),
            Err(_) => 0,
        }
    }

    // Whether the marks behind those of n junctions are as they were; and all of them, where the call was refused.
    pub fn leaves_later_marks(&self, n: u16) -> bool {
        let written = self.written(n);
        self.marks[written..] == BLANK[written..]
    }

    // Adds the answer, and the marks of n junctions where there is one; or the number of the refusal.
    pub fn add_to(&self, checksum: &mut Checksum, n: u16) {
        match self.answer {
            Ok(Bottleneck { sum, crossing }) => {
                checksum.add(sum);
                checksum.add(crossing as u64);
            }
            Err(refusal) => checksum.add(u64::from(refusal.fault.number())),
        }
        for mark in &self.marks[..self.written(n)] {
            checksum.add(u64::from(*mark));
        }
    }
}

// Whether the call is refused with one mark too few, by the network with 8, and writes none.
pub fn refuses_too_few<N: Network>(net: &N) -> bool {
    let n = net.size().junctions;
    let few = ask_with(net, usize::from(n).saturating_sub(1));
    few.answer == Err(Refusal::new(Fault::NoPlace, Part::Network)) && few.leaves_later_marks(n)
}

// Whether just as many marks as junctions are enough: the call answers the same, and writes the same.
pub fn is_same_with_just_enough<N: Network>(net: &N, asked: &Asked) -> bool {
    let enough = ask_with(net, usize::from(net.size().junctions));
    enough.answer == asked.answer && enough.marks == asked.marks
}
