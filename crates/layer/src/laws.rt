// Laws about layers.
ghost use Rattle.layer.specs.Laws.{ChamberPasses, SourcesDeliver};

// What passes a junction with a chamber is what the chamber's reach carries.
pub fn chamber_passes_stands() -> u8
    ensures { ChamberPasses }
{
    0
}

// What a network with sources and sinks delivers is what the sources' feeders carry.
pub fn sources_deliver_stands() -> u8
    ensures { SourcesDeliver }
{
    0
}
