use crate::dice::Dice;

// The two ends of a reach, or of a network.
#[derive(Clone, Copy)]
pub struct Ends {
    pub from: u16,
    pub to: u16,
}

impl Ends {
    // Any two different ones of n junctions.
    pub fn any(dice: &mut Dice, n: u16) -> Ends {
        let from = dice.junction(n);
        let other = dice.junction(n.saturating_sub(1));
        let to = if other < from {
            other
        } else {
            other.saturating_add(1)
        };
        Ends { from, to }
    }

    // The first and the last of n junctions.
    pub fn outer(n: u16) -> Ends {
        Ends {
            from: 0,
            to: n.saturating_sub(1),
        }
    }

    // The other way round.
    fn turned(self) -> Ends {
        Ends {
            from: self.to,
            to: self.from,
        }
    }

    // Two different junctions, of which seven times in eight the first is the lower one.
    pub fn ahead(dice: &mut Dice, n: u16) -> Ends {
        let ends = Ends::any(dice, n);
        let is_back = dice.one_in(8);
        if (ends.from > ends.to) != is_back {
            ends.turned()
        } else {
            ends
        }
    }

    // Two junctions whose numbers differ by 1 or 2, of which three times in four the first is the lower one.
    pub fn close(dice: &mut Dice, n: u16) -> Ends {
        let last = n.saturating_sub(1);
        let from = dice.junction(last);
        let over = 1 + dice.junction(2);
        let ends = Ends {
            from,
            to: from.saturating_add(over).min(last),
        };
        if dice.one_in(4) { ends.turned() } else { ends }
    }

    // The same, but one time in eight from the intake or to the outfall instead, unless that is their other end.
    pub fn or_outer(self, dice: &mut Dice, outer: Ends) -> Ends {
        match dice.up_to(15) {
            0 if self.to != outer.from => Ends {
                from: outer.from,
                to: self.to,
            },
            1 if self.from != outer.to => Ends {
                from: self.from,
                to: outer.to,
            },
            _ => self,
        }
    }
}
