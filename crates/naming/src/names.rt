ghost use Rattle.std.specs.Prelude.{◌≡◌};
ghost use Rattle.naming.specs.Names.{unnamed, with_name, shown};
ghost use Rattle.naming.specs.Keeping.{names_in, label_text};

use crate::label::Label;
use network::bounds::MOST_JUNCTIONS;

// The names of junctions: of each junction that a network may have, the first name that was given to it.
#[derive(Clone, Copy)]
pub struct Names<'a> {
    given: [Option<&'a [u8]>; MOST_JUNCTIONS],
}

impl<'a> Names<'a> {
    // No junction has a name.
    pub fn none() -> Names<'a>
        ensures { names_in result ≡ unnamed }
    {
        Names {
            given: [None; MOST_JUNCTIONS],
        }
    }

    // Gives a junction this name, unless it has one. A number that no network has is passed over.
    pub fn give(&mut self, junction: u16, name: &'a [u8])
        ensures { names_in self.new ≡ with_name junction name.now (names_in self.old) }
    {
        let place = usize::from(junction);
        if let Some(None) = self.given.get(place) {
            self.given[place] = Some(name);
        }
    }

    // How a junction is shown.
    pub fn label(&self, junction: u16) -> Label<'a>
        ensures { label_text result ≡ shown (names_in self.now) junction }
    {
        match self.given.get(usize::from(junction)) {
            Some(Some(name)) => Label::Name(name),
            _ => Label::Number(junction),
        }
    }
}
