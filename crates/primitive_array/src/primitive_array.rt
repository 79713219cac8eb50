use slots::slots::Slots;
use std::marker::PhantomData;

// A number leaf: slot k's number is the word number k after the byte `place`, lowest byte first.
#[derive_where(Clone, Copy)]
pub struct PrimitiveArray<T> {
    pub place: u64,
    pub slots: Slots,
    pub kind: PhantomData<T>,
}
