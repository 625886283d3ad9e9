use crate::draft::Draft;

pub mod calls;

// The bottom network: a draft that has been commissioned. It is kept in the draft's rows, and no more is laid in them.
#[derive(Drop)]
pub struct Table<'a> {
    pub(crate) laid: Draft<'a>,
}
