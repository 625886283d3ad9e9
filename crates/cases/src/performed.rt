// Calls of every kind, made by one function.
use crate::searching::{MAINS, laid};
use crate::{BLANK, is_refused};
use calls::Settled;
use marking::Bottleneck;
use network::{Reach, Size};
use performing::{Answer, Call, perform};
use refusal::{Fault, Part, Refusal};
use routes::Search;
use searches::{BreadthFirst, Dd1};
use std::process::Abort;
use table::Table;

// Makes a call on a network that settles by this search.
fn made<S: Search + Drop>(
    net: &mut Table<'_>,
    search: S,
    call: Call,
    marks: &mut [u8],
) -> Result<Answer, Refusal> {
    let (_, answer) = perform(net, search, call, marks);
    answer
}

// Whether an answer is the expected one. Of a reach, the limit and the carried amount are compared.
fn is_answer(answer: Result<Answer, Refusal>, expected: Answer) -> bool {
    let Ok(answer) = answer else {
        return false;
    };
    match (answer, expected) {
        (Answer::Settled(settled), Answer::Settled(wanted)) => settled == wanted,
        (Answer::Limited { reach, limit }, Answer::Limited { reach: k, limit: q }) => {
            reach == k && limit == q
        }
        (Answer::Tally(litres), Answer::Tally(wanted)) => litres == wanted,
        (Answer::Bottleneck(found), Answer::Bottleneck(wanted)) => found == wanted,
        (Answer::Size(size), Answer::Size(wanted)) => size == wanted,
        (Answer::Reach(reach), Answer::Reach(wanted)) => {
            (reach.limit, reach.carried) == (wanted.limit, wanted.carried)
        }
        (Answer::Touched(reach), Answer::Touched(wanted)) => reach == wanted,
        (Answer::Drained, Answer::Drained) => true,
        _ => false,
    }
}

// Makes calls, one after another. Each is answered with what stands beside it.
fn answers(rt: &impl Abort, net: &mut Table<'_>, calls: &[(Call, Answer)], marks: &mut [u8]) {
    for (call, expected) in calls {
        let answer = made(net, BreadthFirst, *call, marks);
        assert!(rt; is_answer(answer, *expected));
    }
}

// Makes calls, one after another. Each is refused by the network with the fault that stands beside it, if one does.
fn refuses(
    rt: &impl Abort,
    net: &mut Table<'_>,
    calls: &[(Call, Option<Fault>)],
    marks: &mut [u8],
) {
    for (call, fault) in calls {
        let answer = made(net, BreadthFirst, *call, marks);
        assert!(rt; is_refused(answer, *fault, Part::Network));
    }
}

// Calls on the two mains, settled, that write no mark.
const BEFORE: [(Call, Answer); 5] = [
    (Call::Tally, Answer::Tally(5)),
    (
        Call::Limit { reach: 4, limit: 9 },
        Answer::Limited { reach: 4, limit: 9 },
    ),
    (
        Call::Size,
        Answer::Size(Size {
            junctions: 4,
            reaches: 5,
            intake: 0,
            outfall: 3,
        }),
    ),
    (
        Call::Reach { reach: 4 },
        Answer::Reach(Reach {
            tail: 2,
            head: 3,
            limit: 9,
            carried: 3,
        }),
    ),
    (
        Call::Touch {
            junction: 2,
            from: 2,
        },
        Answer::Touched(Some(2)),
    ),
];

// Calls that follow them; the first writes marks.
const AFTER: [(Call, Answer); 3] = [
    (
        Call::Bottleneck,
        Answer::Bottleneck(Bottleneck {
            sum: 5,
            crossing: 2,
        }),
    ),
    (Call::Drain, Answer::Drained),
    (Call::Tally, Answer::Tally(0)),
];

#[test]
fn each_call_answers_for_itself(rt: HostRuntime) {
    let mut rows = [BLANK; 5];
    let mut net = laid(&rt, &mut rows, 4, &MAINS);
    let mut marks = [7; 5];
    let settled = made(&mut net, Dd1, Call::Settle { budget: 10 }, &mut marks);
    let expected = Settled {
        routes: 3,
        litres: 5,
        finished: true,
    };
    assert!(rt; is_answer(settled, Answer::Settled(expected)));
    answers(&rt, &mut net, &BEFORE, &mut marks);
    assert!(rt; marks == [7; 5]);
    answers(&rt, &mut net, &AFTER, &mut marks);
    assert!(rt; marks == [1, 0, 0, 0, 7]);
}

#[test]
fn each_call_refuses_for_itself(rt: HostRuntime) {
    let mut rows = [BLANK; 5];
    let mut net = laid(&rt, &mut rows, 4, &MAINS);
    let mut marks = [7; 3];
    let high = Call::Limit {
        reach: 0,
        limit: 1_000_001,
    };
    let calls = [
        (Call::Bottleneck, Some(Fault::NoPlace)),
        (Call::Reach { reach: 5 }, Some(Fault::NoReach)),
        (Call::Limit { reach: 5, limit: 0 }, Some(Fault::NoReach)),
        (high, Some(Fault::LimitTooHigh)),
        (Call::Settle { budget: 1 }, None),
        (
            Call::Limit { reach: 0, limit: 1 },
            Some(Fault::LimitBelowCarried),
        ),
    ];
    refuses(&rt, &mut net, &calls, &mut marks);
    let open = (Call::Bottleneck, Some(Fault::RouteExists));
    refuses(&rt, &mut net, &[open], &mut [7; 4]);
    assert!(rt; marks == [7; 3]);
}
