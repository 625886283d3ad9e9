// One number of a reach that is to be set: the amount that it carries, or its limit.
#[derive(Clone, Copy, PartialEq, Eq, Debug)]
pub enum Change {
    Carry(u32),
    Limit(u32),
}
