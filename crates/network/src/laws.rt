// Laws about what the calls of a network answer.
ghost use Rattle.network.specs.Laws.{TouchLaws, ChangeLaws};

// What touch answers is one answer only, and nothing for a number that is no junction.
pub fn one_touch_stands() -> u8
    ensures { TouchLaws }
{
    0
}

// A change has one outcome only, and leaves a sound network sound.
pub fn one_change_stands() -> u8
    ensures { ChangeLaws }
{
    0
}
