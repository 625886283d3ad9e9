// Drafts, tables, tally and draining.
use crate::searching::laid;
use crate::{BLANK, delivers, is_refused, sets};
use calls::drain;
use network::{Change, Network};
use refusal::{Fault, Part};
use std::process::Abort;
use table::Draft;

// Lays reaches, one after another: each its tail, head and limit, and the fault with which it is refused, if it is.
fn lays(rt: &impl Abort, draft: &mut Draft<'_>, cases: &[(u16, u16, u32, Option<Fault>)]) {
    for (tail, head, limit, fault) in cases {
        assert!(rt; is_refused(draft.lay(*tail, *head, *limit), *fault, Part::Draft));
    }
}

// Sets shapes, one after another: each its junctions, intake and outfall, and the fault with which it is refused, if it is.
fn shapes(rt: &impl Abort, draft: &mut Draft<'_>, cases: &[(u16, u16, u16, Option<Fault>)]) {
    for (junctions, intake, outfall, fault) in cases {
        assert!(rt;
            is_refused(
                draft.shape(*junctions, *intake, *outfall),
                *fault,
                Part::Draft
            )
        );
    }
}

#[test]
fn the_1024th_reach_is_the_last(rt: HostRuntime) {
    let mut rows = [BLANK; 1026];
    let mut draft = Draft::new(&mut rows);
    lays(&rt, &mut draft, &[(0, 1, 7, None); 1024]);
    lays(&rt, &mut draft, &[(0, 1, 7, Some(Fault::NoPlace))]);
    assert!(rt; rows[1023].limit == 7 && rows[1024].limit == 9);
}

#[test]
fn a_short_table_has_fewer_places(rt: HostRuntime) {
    let mut rows = [BLANK; 3];
    let mut draft = Draft::new(&mut rows);
    let cases = [
        (0, 1, 1, None),
        (1, 0, 2, None),
        (0, 1, 3, None),
        (0, 1, 4, Some(Fault::NoPlace)),
    ];
    lays(&rt, &mut draft, &cases);
}

#[test]
fn shapes_from_2_to_256_junctions(rt: HostRuntime) {
    let mut rows = [BLANK; 1];
    let mut draft = Draft::new(&mut rows);
    let cases = [
        (1, 0, 0, Some(Fault::JunctionCount)),
        (257, 0, 1, Some(Fault::JunctionCount)),
        (2, 0, 2, Some(Fault::NoJunction)),
        (2, 1, 1, Some(Fault::Same)),
        (256, 255, 0, None),
        (2, 0, 1, None),
    ];
    shapes(&rt, &mut draft, &cases);
    lays(&rt, &mut draft, &[(0, 1, 1, None)]);
    shapes(&rt, &mut draft, &[(2, 0, 1, Some(Fault::TooLate))]);
}

#[test]
fn limits_go_up_to_a_million(rt: HostRuntime) {
    let mut rows = [BLANK; 2];
    let mut draft = Draft::new(&mut rows);
    let cases = [
        (0, 1, 1_000_001, Some(Fault::LimitTooHigh)),
        (0, 1, 1_000_000, None),
    ];
    lays(&rt, &mut draft, &cases);
    let cases = [
        (0, Change::Limit(3), None),
        (0, Change::Limit(1_000_000), None),
        (0, Change::Limit(1_000_001), Some(Fault::LimitTooHigh)),
        (1, Change::Limit(1_000_001), Some(Fault::NoReach)),
    ];
    sets(&rt, &mut draft.commission(), Part::Network, &cases);
}

#[test]
fn limits_and_carried_amounts(rt: HostRuntime) {
    let mut rows = [BLANK; 2];
    let mut draft = Draft::new(&mut rows);
    lays(&rt, &mut draft, &[(0, 1, 8, None), (1, 0, 20, None)]);
    let mut net = draft.commission();
    let cases = [
        (0, Change::Carry(5), None),
        (0, Change::Limit(4), Some(Fault::LimitBelowCarried)),
        (0, Change::Limit(5), None),
        (0, Change::Carry(6), Some(Fault::AmountAboveLimit)),
    ];
    sets(&rt, &mut net, Part::Network, &cases);
    delivers(&rt, &net, 5);
    sets(
        &rt,
        &mut net,
        Part::Network,
        &[(1, Change::Carry(20), None)],
    );
    delivers(&rt, &net, -15);
    drain(&mut net);
    delivers(&rt, &net, 0);
}

// The example of docs/NETWORK.md.
#[test]
fn the_example_delivers_300(rt: HostRuntime) {
    let mut rows = [BLANK; 8];
    let mut net = laid(&rt, &mut rows, 3, &[(0, 1, 500), (1, 2, 400)]);
    let amounts = [(0, Change::Carry(300), None), (1, Change::Carry(300), None)];
    sets(&rt, &mut net, Part::Network, &amounts);
    delivers(&rt, &net, 300);
    drain(&mut net);
}

#[test]
fn touch_gives_the_lowest_from_k_on(rt: HostRuntime) {
    let mut rows = [BLANK; 3];
    let net = laid(&rt, &mut rows, 4, &[(0, 1, 1), (2, 3, 1), (3, 0, 1)]);
    let lowest = [
        net.touch(0, 0),
        net.touch(0, 1),
        net.touch(0, 3),
        net.touch(4, 0),
    ];
    assert!(rt; lowest == [Some(0), Some(2), None, None]);
}
