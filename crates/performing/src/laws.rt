// A law about any one call.
ghost use Rattle.performing.specs.Laws.{SearchLaws};

// A call that is no settling gives back the search that was handed in, whatever the search is.
pub fn search_stays_stands<S>() -> u8
    ensures { SearchLaws S }
{
    0
}
