// What each network looks like, by its number.

// How large a network is.
#[derive(Clone, Copy)]
pub enum Scale {
    // at most 12 junctions and 40 reaches
    Small,
    // at most 60 junctions and 300 reaches
    Middle,
    // up to as many junctions and reaches as a table has
    Large,
}

impl Scale {
    // The number for a scale.
    pub fn pick(self, small: u16, middle: u16, large: u16) -> u16 {
        match self {
            Scale::Small => small,
            Scale::Middle => middle,
            Scale::Large => large,
        }
    }
}

// How the reaches of a network lie.
#[derive(Clone, Copy)]
pub enum Kind {
    // between any two junctions
    Any,
    // the same, with limits of at most 2
    Low,
    // the same, with limits close to the highest
    High,
    // most of them from a lower junction to a higher one
    Ahead,
    // between junctions whose numbers are close
    Close,
    // between any two junctions; about half of them carry an amount from the first, and junctions are not in balance
    Carrying,
    // from layer to layer of a chain, with some that leave layers out
    Chain,
    // both ways between neighbours in a square
    Grid,
    // from the intake to the left side, from there to the right side, and to the outfall, all with the limit 1
    Matching,
    // from each junction to those that it feeds, and from every junction to the outfall
    Tree,
    // from every junction but the last to every other one
    Dense,
    // in a row of groups; the shortest way through a group takes a reach that two longer ways do without
    Crossed,
}

// The kinds, which the networks take by turns, and the words for them.
const KINDS: [(Kind, &str); 12] = [
    (Kind::Any, "any"),
    (Kind::Low, "low"),
    (Kind::High, "high"),
    (Kind::Ahead, "ahead"),
    (Kind::Close, "close"),
    (Kind::Carrying, "carrying"),
    (Kind::Chain, "chain"),
    (Kind::Grid, "grid"),
    (Kind::Matching, "matching"),
    (Kind::Tree, "tree"),
    (Kind::Dense, "dense"),
    (Kind::Crossed, "crossed"),
];

// The numbers from which networks are of middle size, from which they are large, and at which they end.
const FIRST_MIDDLE: u32 = 552;

const FIRST_LARGE: u32 = 600;

pub const NETWORKS: u32 = 612;

// A kind, with its word, and a scale.
#[derive(Clone, Copy)]
pub struct Form {
    pub kind: Kind,
    pub word: &'static str,
    pub scale: Scale,
}

impl Form {
    // The form of the network of a number.
    pub fn of(number: u32) -> Form {
        let scale = if number < FIRST_MIDDLE {
            Scale::Small
        } else if number < FIRST_LARGE {
            Scale::Middle
        } else {
            Scale::Large
        };
        let (kind, word) = KINDS[number as usize % KINDS.len()];
        Form { kind, word, scale }
    }
}
