// A call on a network, with what is handed in. Size, Reach and Touch only read.
#[derive(Clone, Copy, PartialEq, Eq, Debug)]
pub enum Call {
    Settle { budget: u32 },
    Limit { reach: usize, limit: u32 },
    Drain,
    Tally,
    Bottleneck,
    Size,
    Reach { reach: usize },
    Touch { junction: u16, from: usize },
}
