// Twins of junctions, by the junction's number. (That the number is in the array stands in two clauses, and not in a type
// for such a number: the callers would make one for each call, from what they know of the junction.)
ghost use Rattle.std.specs.Prelude.{◌≡◌, ◌<◌, length, is_some, None, slice_index_or};
ghost use Rattle.layer.specs.Chambered.{or_self};

// The junction that reaches leave in place of v: its twin where it has one.
pub fn left_from(twins: &[Option<u16>], v: u16) -> u16
    requires { v < length twins.now }
    ensures { result ≡ or_self (slice_index_or twins.now v None) v }
{
    twins[usize::from(v)].unwrap_or(v)
}

// Whether v has a twin.
pub fn has_twin(twins: &[Option<u16>], v: u16) -> bool
    requires { v < length twins.now }
    ensures { result ≡ is_some (slice_index_or twins.now v None) }
{
    twins[usize::from(v)].is_some()
}
