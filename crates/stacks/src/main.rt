// Puts layers over tables and over each other: stacks as dice draw them, and two towers that grow until no place is
// left. Prints what each call answers, and what each network is. tools/make_stacks.py makes the same lines from the
// rules alone.
#![tactic(auto)]

mod dice;
mod drawn;
mod lines;
mod out;
mod showing;
mod stacking;
mod towers;

use out::Out;
use stacking::show_stack;
use std::io;
use towers::{show_tower_of_junctions, show_tower_of_reaches};

// How many stacks are drawn.
const STACKS: u32 = 120;

fn main(rt: HostRuntime) -> io::Result<()> {
    let mut out = Out::new(rt.alloc(), rt.stdout())?;
    for number in 0..STACKS {
        show_stack(&mut out, number);
    }
    show_tower_of_junctions(&mut out);
    show_tower_of_reaches(&mut out);
    out.end()
}
