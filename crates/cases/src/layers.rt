// Layers over a table.
use crate::searching::laid;
use crate::{BLANK, delivers, is_refused, sets};
use chambers::Chambers;
use gathering::{Gathering, Role};
use network::{Change, Network};
use refusal::{Fault, Part};
use std::process::Abort;

// A network with these chambers over it, each a junction and its limit.
fn chambered<N: Network>(rt: &impl Abort, below: N, entries: &[(u16, u32)]) -> Chambers<N> {
    let mut chambers = Chambers::new(below);
    let mut refused = false;
    for (junction, limit) in entries {
        refused |= chambers.enter(*junction, *limit).is_err();
    }
    assert!(rt; !refused);
    chambers
}

// A network with these sources and sinks gathered over it, each a junction and the limit of its feeder.
fn gathered<N: Network>(
    rt: &impl Abort,
    below: N,
    entries: &[(Role, u16, Option<u32>)],
) -> Gathering<N> {
    let mut gathering = Gathering::new(below);
    let mut refused = false;
    for (role, junction, limit) in entries {
        refused |= gathering.enter(*role, *junction, *limit).is_err();
    }
    assert!(rt; !refused);
    gathering
}

// The reaches, the chambers, the sources and sinks, and the carried amounts of the example of docs/LAYERS.md.
const REACHES: [(u16, u16, u32); 5] = [
    (0, 1, 500),
    (1, 2, 300),
    (1, 3, 250),
    (2, 3, 300),
    (3, 1, 40),
];

const CHAMBERS: [(u16, u32); 2] = [(1, 450), (3, 400)];

const ENTRIES: [(Role, u16, Option<u32>); 3] = [
    (Role::Source, 0, None),
    (Role::Sink, 5, Some(380)),
    (Role::Source, 2, Some(120)),
];

const AMOUNTS: [(usize, Change, Option<Fault>); 2] = [
    (7, Change::Carry(300), None),
    (8, Change::Carry(100), None),
];

#[test]
fn the_example_of_layers_delivers_400(rt: HostRuntime) {
    let mut rows = [BLANK; 8];
    let chambers = chambered(&rt, laid(&rt, &mut rows, 4, &REACHES), &CHAMBERS);
    let mut net = gathered(&rt, chambers, &ENTRIES);
    sets(&rt, &mut net, Part::Network, &AMOUNTS);
    delivers(&rt, &net, 400);
}

#[test]
fn each_part_answers_for_its_reaches(rt: HostRuntime) {
    let mut rows = [BLANK; 1];
    let table = laid(&rt, &mut rows, 2, &[(0, 1, 7)]);
    let chambers = chambered(&rt, table, &[(1, 7)]);
    let mut net = gathered(&rt, chambers, &[(Role::Source, 0, Some(7))]);
    let five = [
        (0, Change::Carry(5), None),
        (1, Change::Carry(5), None),
        (2, Change::Carry(5), None),
    ];
    sets(&rt, &mut net, Part::Network, &five);
    for (reach, part) in [
        (0, Part::Network),
        (1, Part::Chambers),
        (2, Part::Gathering),
    ] {
        let low = (reach, Change::Limit(4), Some(Fault::LimitBelowCarried));
        sets(&rt, &mut net, part, &[low]);
    }
    let high = [
        (0, Change::Carry(8), Some(Fault::AmountAboveLimit)),
        (3, Change::Carry(8), Some(Fault::NoReach)),
    ];
    sets(&rt, &mut net, Part::Network, &high);
    let late = net.enter(Role::Sink, 0, None);
    assert!(rt; is_refused(late, Some(Fault::TooLate), Part::Gathering));
}
