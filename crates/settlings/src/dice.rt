// The dice of tools/make_cases.py: numbers that look drawn, and are the same in every run.
ghost use Rattle.std.specs.Prelude.{◌≤◌, ◌-◌};

#[derive(Drop)]
pub struct Dice {
    state: u64,
}

impl Dice {
    pub fn new(seed: u64) -> Dice {
        let mut dice = Dice { state: seed };
        for _ in 0..4 {
            let _ = dice.up_to(1);
        }
        dice
    }

    // The next number, from 0 to the most that it may be.
    pub fn up_to(&mut self, most: u32) -> u32
        ensures { result ≤ most }
    {
        self.state = self
            .state
            .wrapping_mul(6364136223846793005)
            .wrapping_add(1442695040888963407);
        ((self.state >> 33) % (u64::from(most) + 1)) as u32
    }

    // Whether a number from 0 to one below `many` comes out as 0.
    pub fn one_in(&mut self, many: u32) -> bool {
        self.up_to(many.saturating_sub(1)) == 0
    }

    // One of the first n junctions; 0 where n is 0.
    pub fn junction(&mut self, n: u16) -> u16
        ensures { result ≤ n - 1 }
    {
        self.up_to(u32::from(n.saturating_sub(1))) as u16
    }
}
