// Laws about the calls of a draft and of a network.
ghost use Rattle.table.specs.Edges.{EdgeCases};

// What the calls answer at the edges of the bounds.
pub fn each_edge_stands() -> u8
    ensures { EdgeCases }
{
    0
}
