// A checksum of numbers in their order.
#[derive(Clone, Copy)]
pub struct Checksum(pub u64);

impl Checksum {
    // Of no number.
    pub fn new() -> Checksum {
        Checksum(0)
    }

    // With one number more.
    pub fn add(&mut self, number: u64) {
        self.0 = self
            .0
            .wrapping_mul(1_000_003)
            .wrapping_add(number)
            .wrapping_add(1);
    }
}
