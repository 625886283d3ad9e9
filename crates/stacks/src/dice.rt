// The dice of tools/make_cases.py: numbers that look drawn, and are the same in every run.
ghost use Rattle.std.specs.Prelude.{◌<◌};

#[derive(Drop)]
pub struct Dice {
    state: u64,
}

impl Dice {
    pub fn new(seed: u64) -> Dice {
        let mut dice = Dice { state: seed };
        for _ in 0..4 {
            let _ = dice.below(2);
        }
        dice
    }

    // The next number, which is below the bound. (That a bound is above 0 stands in clauses of three functions of this program,
    // and not in a type: callers have it as a literal, or as a sum with one.)
    pub fn below(&mut self, bound: usize) -> usize
        requires { 0 < bound }
        ensures { result < bound }
    {
        self.state = self
            .state
            .wrapping_mul(6364136223846793005)
            .wrapping_add(1442695040888963407);
        (self.state >> 33) as usize % bound
    }
}
