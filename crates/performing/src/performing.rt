ghost use Rattle.std.specs.Prelude.{◌≡◌, ℕ};
ghost use Rattle.performing.specs.Calling.{Performed, SearchStays};
ghost use Rattle.performing.specs.Promising.{Promised};
ghost use Rattle.performing.specs.Events.{event_by};

use crate::answer::Answer;
use crate::call::Call;
use calls::{drain, settle, tally};
use marking::bottleneck;
use network::Network;
use refusal::Refusal;
use routes::Search;

// Makes one call on a network, whatever call it is, and answers or refuses as that call does. Settling goes by this search,
// which comes back resting; a bottleneck writes these marks.
//
// The clause `promise`: wherever calls have led a network that was commissioned and dry, this one leads it on, and all that
// `Promise` of crate flow says holds of all of them.
pub fn perform<N: Network, S: Search>(
    net: &mut N,
    search: S,
    call: Call,
    marks: &mut [u8],
) -> (S, Result<Answer, Refusal>)
    ensures done { Performed (N.meaning net.old) (N.giver net.old) call marks.old result.1 marks.new (N.meaning net.new) }
    ensures promise { Promised (N.meaning net.old) (event_by result.1 call marks.old (N.meaning net.old)) (N.meaning net.new) }
    ensures giver { (j : ℕ) → N.giver net.new j ≡ N.giver net.old j }
    ensures search { SearchStays call search result.0 }
{
    match call {
        Call::Settle { budget } => {
            let (search, settled) = settle(net, search, budget);
            (search, Ok(Answer::Settled(settled)))
        }
        Call::Limit { reach, limit } => {
            let answer = net.limit(reach, limit);
            (search, answer.map(|()| Answer::Limited { reach, limit }))
        }
        Call::Drain => {
            drain(net);
            (search, Ok(Answer::Drained))
        }
        Call::Tally => (search, Ok(Answer::Tally(tally(net)))),
        Call::Bottleneck => (search, bottleneck(net, marks).map(Answer::Bottleneck)),
        Call::Size => (search, Ok(Answer::Size(net.size()))),
        Call::Reach { reach } => (search, net.reach(reach).map(Answer::Reach)),
        Call::Touch { junction, from } => {
            (search, Ok(Answer::Touched(net.touch(junction, from))))
        }
    }
}
