// The meaning of networks and the mathematics about them. The definitions stand in specs/, the proofs in proofs/;
// each function here is proved to meet a contract that is one law.
#![tactic(auto)]

ghost use Rattle.flow.specs.Laws.{KeepsSound, OneChanged, DrainedIsDry, TwoSteps, AmountsBounded, AlikeMeans};
ghost use Rattle.flow.specs.RouteLaws.{RouteLaws, PushLaws, RunsBounded, MachineLaws};
ghost use Rattle.flow.specs.CutLaws.{CutLaws};
ghost use Rattle.flow.specs.LabelLaws.{LabelLaws};
ghost use Rattle.flow.specs.HistoryLaws.{HistoryLaws};
ghost use Rattle.flow.specs.BottleneckLaws.{BottleneckLaws};
ghost use Rattle.flow.specs.Promises.{PromiseKept};
ghost use Rattle.flow.specs.Cases.{WorkedCases, WorkedHistory};

// Accepted changes and draining keep a network sound.
pub fn keeps_sound_stands() -> u8
    ensures { KeepsSound }
{
    0
}

// A change of one reach leaves every other as it was.
pub fn one_changed_stands() -> u8
    ensures { OneChanged }
{
    0
}

// A drained network carries and delivers nothing.
pub fn drained_is_dry_stands() -> u8
    ensures { DrainedIsDry }
{
    0
}

// The two steps along a reach, forth and back, and their headroom.
pub fn two_steps_stands() -> u8
    ensures { TwoSteps }
{
    0
}

// What leaves or enters a junction is at most 2,048,000,000.
pub fn amounts_bounded_stands() -> u8
    ensures { AmountsBounded }
{
    0
}

// Networks are alike but for what they carry when they agree in all else, number by number.
pub fn alike_stands() -> u8
    ensures { AlikeMeans }
{
    0
}

// There is one first shortest route, or none; a shortest route goes along no reach twice.
pub fn first_route_stands() -> u8
    ensures { RouteLaws }
{
    0
}

// A shortest route that is pushed adds the least headroom on it; draining and accepted limits leave a flow.
pub fn pushing_stands() -> u8
    ensures { PushLaws }
{
    0
}

// Shortest routes pushed one after another never get shorter, and there are at most m × (n − 1) of them.
pub fn run_bound_stands() -> u8
    ensures { RunsBounded }
{
    0
}

// The plain machine pushes one list of routes with each budget; m × (n − 1) is enough.
pub fn machine_stands() -> u8
    ensures { MachineLaws }
{
    0
}

// What a flow delivers, cuts, and the bottleneck of a network in which no route exists.
pub fn bottleneck_stands() -> u8
    ensures { CutLaws }
{
    0
}

// Labels bound walks, lead to the first shortest route, and last.
pub fn labelling_stands() -> u8
    ensures { LabelLaws }
{
    0
}

// A settling has one answer, and so has the bottleneck; a history goes on call by call.
pub fn history_stands() -> u8
    ensures { HistoryLaws }
{
    0
}

// There is one near side of the bottleneck, as a function, and one list of marks that tells it.
pub fn one_bottleneck_stands() -> u8
    ensures { BottleneckLaws }
{
    0
}

// Every history of a network that was commissioned and dry keeps the promise.
pub fn promise_stands() -> u8
    ensures { PromiseKept }
{
    0
}

// The worked cases.
pub fn each_case_stands() -> u8
    ensures { WorkedCases }
{
    0
}

// The calls of a worked history happen, and the network stands finished after them.
pub fn worked_history_stands() -> u8
    ensures { WorkedHistory }
{
    0
}
