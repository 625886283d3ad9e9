// Laws about what the calls answer.
ghost use Rattle.calls.specs.Settling.{OneSettling};

// Settling has one outcome only.
pub fn one_settling_stands() -> u8
    ensures { OneSettling }
{
    0
}
