use rows::rows::Rows;
use std::marker::PhantomData;

// A builder of a number leaf on a body of so many bytes: its rows' marks, and their numbers from the byte `numbers` on.
#[derive(Drop)]
pub struct PrimitiveBuilder<T> {
    pub(crate) length: u64,
    pub(crate) rows: Rows,
    pub(crate) numbers: u64,
    pub(crate) kind: PhantomData<T>,
}
