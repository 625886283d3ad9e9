// What an entry makes of a junction: water comes in at a source, and goes out at a sink.
#[derive(Clone, Copy, PartialEq, Eq, Debug)]
pub enum Role {
    Source,
    Sink,
}
