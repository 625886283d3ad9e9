// How many junctions and reaches a network has, its intake and its outfall. No call of the interface changes them.
#[derive(Clone, Copy, PartialEq, Eq, Debug)]
pub struct Size {
    pub junctions: u16,
    pub reaches: usize,
    pub intake: u16,
    pub outfall: u16,
}
