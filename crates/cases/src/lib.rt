// Tests of the library on examples at the edges of its rules.
#![tactic(auto)]

#[cfg(test)]
mod bottlenecks;
#[cfg(test)]
mod layers;
#[cfg(test)]
mod networks;
#[cfg(test)]
mod performed;
#[cfg(test)]
mod readers;
#[cfg(test)]
mod searching;

#[cfg(test)]
use calls::tally;
#[cfg(test)]
use network::{Change, Network, Row};
#[cfg(test)]
use refusal::{Fault, Part, Refusal};
#[cfg(test)]
use std::process::Abort;

// What the rows of a table hold before reaches are laid in them.
#[cfg(test)]
const BLANK: Row = Row {
    tail: 9,
    head: 9,
    limit: 9,
    carried: 9,
};

// Whether a library call is refused with this fault by this part, or, where no fault is named, is not refused.
#[cfg(test)]
fn is_refused<T: Drop>(answer: Result<T, Refusal>, fault: Option<Fault>, part: Part) -> bool {
    match (answer, fault) {
        (Ok(_), None) => true,
        (Err(refusal), Some(fault)) => refusal == Refusal::new(fault, part),
        _ => false,
    }
}

// Sets amounts and limits of reaches, one after another, by the calls for them. Each is refused with the fault that stands
// beside it, if one does, by this part.
#[cfg(test)]
fn sets<N: Network>(
    rt: &impl Abort,
    net: &mut N,
    part: Part,
    cases: &[(usize, Change, Option<Fault>)],
) {
    for (reach, change, fault) in cases {
        let answer = match *change {
            Change::Carry(amount) => net.carry(*reach, amount),
            Change::Limit(limit) => net.limit(*reach, limit),
        };
        assert!(rt; is_refused(answer, *fault, part));
    }
}

// The network delivers so much.
#[cfg(test)]
fn delivers<N: Network>(rt: &impl Abort, net: &N, litres: i64) {
    assert!(rt; tally(net) == litres);
}
