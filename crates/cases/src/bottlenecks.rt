// The bottleneck.
use crate::searching::{CROSSED, MAINS, laid};
use crate::{BLANK, is_refused};
use calls::settle;
use marking::{Bottleneck, bottleneck, crosses, next_crossing};
use network::Network;
use refusal::{Fault, Part};
use searches::{BreadthFirst, Dd1, Dd2};
use std::process::Abort;
use table::{Draft, Table};

// Asks for the bottleneck with marks of 7, of which so many are lent. It answers the sum of the limits that cross and how
// many they are, or is refused with a fault, and the marks are these afterwards.
fn bottleneck_is(
    rt: &impl Abort,
    net: &Table<'_>,
    lent: usize,
    expected: Result<(u64, usize), Fault>,
    after: [u8; 6],
) {
    let mut marks = [7; 6];
    let answer = bottleneck(net, &mut marks[..lent.min(6)]);
    let right = match expected {
        Ok((sum, crossing)) => answer == Ok(Bottleneck { sum, crossing }),
        Err(fault) => is_refused(answer, Some(fault), Part::Network),
    };
    assert!(rt; right && marks == after);
}

// The lowest reaches that cross from a number on, each with that number before it.
fn crossings_are(
    rt: &impl Abort,
    net: &Table<'_>,
    marks: &[u8],
    crossings: &[(usize, Option<usize>)],
) {
    for (from, crossing) in crossings {
        assert!(rt; next_crossing(net, marks, *from) == *crossing);
    }
}

#[test]
fn the_bottleneck_of_two_mains(rt: HostRuntime) {
    let mut rows = [BLANK; 5];
    let mut net = laid(&rt, &mut rows, 4, &MAINS);
    let _rested = settle(&mut net, Dd1, 2);
    bottleneck_is(&rt, &net, 6, Err(Fault::RouteExists), [7; 6]);
    bottleneck_is(&rt, &net, 3, Err(Fault::NoPlace), [7; 6]);
    let _rested = settle(&mut net, Dd1, 1);
    bottleneck_is(&rt, &net, 3, Err(Fault::NoPlace), [7; 6]);
    bottleneck_is(&rt, &net, 6, Ok((5, 2)), [1, 0, 0, 0, 7, 7]);
    bottleneck_is(&rt, &net, 4, Ok((5, 2)), [1, 0, 0, 0, 7, 7]);
}

#[test]
fn the_intake_alone_is_near(rt: HostRuntime) {
    let mut rows = [BLANK; 7];
    let mut net = laid(&rt, &mut rows, 6, &CROSSED);
    let _rested = settle(&mut net, Dd2, 10);
    let marks = [1, 0, 0, 0, 0, 0];
    bottleneck_is(&rt, &net, 6, Ok((2, 2)), marks);
    crossings_are(&rt, &net, &marks, &[(0, Some(0)), (1, Some(5)), (6, None)]);
}

// The last two reaches are a bottleneck, and so is the first: the near side is the smaller.
#[test]
fn of_two_least_cuts_the_nearer(rt: HostRuntime) {
    let mut rows = [BLANK; 4];
    let reaches = [(0, 1, 9), (1, 2, 4), (2, 3, 3), (2, 3, 1)];
    let mut net = laid(&rt, &mut rows, 4, &reaches);
    let _rested = settle(&mut net, BreadthFirst, 10);
    bottleneck_is(&rt, &net, 4, Ok((4, 1)), [1, 1, 0, 0, 7, 7]);
}

#[test]
fn reaches_of_limit_0_cross_too(rt: HostRuntime) {
    let mut rows = [BLANK; 3];
    let reaches = [(0, 1, 0), (1, 0, 5), (0, 1, 2)];
    let mut net = laid(&rt, &mut rows, 2, &reaches);
    let _rested = settle(&mut net, Dd1, 10);
    bottleneck_is(&rt, &net, 2, Ok((2, 2)), [1, 0, 7, 7, 7, 7]);
    crossings_are(&rt, &net, &[1, 0], &[(1, Some(2))]);
    let dry = net.reach(0);
    assert!(rt; matches!(dry, Ok(dry) if crosses(&[1, 0], dry) && !crosses(&[], dry)));
}

#[test]
fn no_reach_at_all(rt: HostRuntime) {
    let mut rows = [BLANK; 1];
    let net = Draft::new(&mut rows).commission();
    bottleneck_is(&rt, &net, 3, Ok((0, 0)), [1, 0, 7, 7, 7, 7]);
}
