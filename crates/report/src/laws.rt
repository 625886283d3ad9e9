// Laws about what is printed.
ghost use Rattle.report.specs.Worked.{WorkedReport};
ghost use Rattle.report.specs.Kinds.{LineKinds};

// The lines of a worked drawing, figure by figure.
pub fn worked_drawing_stands() -> u8
    ensures { WorkedReport }
{
    0
}

// Each line is known by how it begins, as what it is and as nothing else.
pub fn line_kinds_stand() -> u8
    ensures { LineKinds }
{
    0
}
