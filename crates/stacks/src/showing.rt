// Calling a network, and printing what it answers.

use crate::lines::{write_call, write_reach, write_size};
use crate::out::Out;
use chambers::Chambers;
use gathering::{Gathering, Role};
use network::{Change, Network, Reaches, Touching};

// The word for a change in a line, and the number that stands apart from it there, as no `Display` would have it.
fn word_of_change(change: Change) -> (&'static str, u32) {
    match change {
        Change::Carry(amount) => ("carry", amount),
        Change::Limit(q) => ("limit", q),
    }
}

// Calls carry or limit.
pub fn show_change<N: Network>(out: &mut Out, net: &mut N, k: usize, change: Change) {
    let (word, x) = word_of_change(change);
    let answer = net.change(k, change);
    write_call(out, word, k, Some(x), answer);
}

// Enters a chamber.
pub fn show_chamber<N: Network>(out: &mut Out, layer: &mut Chambers<N>, v: u16, q: u32) {
    let answer = layer.enter(v, q);
    write_call(out, "chamber", usize::from(v), Some(q), answer);
}

// The word for a role in a line of this program; the library prints none.
fn word_of(role: Role) -> &'static str {
    match role {
        Role::Source => "source",
        Role::Sink => "sink",
    }
}

// Enters a source or a sink.
pub fn show_feeder<N: Network>(
    out: &mut Out,
    layer: &mut Gathering<N>,
    role: Role,
    v: u16,
    stated: Option<u32>,
) {
    let answer = layer.enter(role, v, stated);
    write_call(out, word_of(role), usize::from(v), stated, answer);
}

pub fn show_size<N: Network>(out: &mut Out, net: &N) {
    write_size(out, net.size());
}

// All reaches, in the order of their numbers.
pub fn show_reaches<N: Network>(out: &mut Out, net: &N) {
    for (k, reach) in Reaches::of(net).enumerate() {
        write_reach(out, k, reach);
    }
}

// The numbers of the reaches that touch a junction.
fn show_touches<N: Network>(out: &mut Out, net: &N, v: u16) {
    write!(out, "touch {v}");
    for k in Touching::from(net, v, 0) {
        write!(out, " {k}");
    }
    writeln!(out);
}

// The whole network: its size, its reaches, and what touches each junction and the number after the last.
pub fn show_network<N: Network>(out: &mut Out, net: &N) {
    show_size(out, net);
    show_reaches(out, net);
    for v in 0..=net.size().junctions {
        show_touches(out, net, v);
    }
}
