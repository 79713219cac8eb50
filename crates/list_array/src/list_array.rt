use form::data_type::Field;
use slots::slots::Slots;
use std::marker::PhantomData;

// A list over any child: slot k's entries are those of the child from offset k up to offset k + 1, the offsets being the
// words of kind O from the byte `place` on.
//
//     offsets   0   2   2   5          slot 0: entries 0, 1    slot 1: none    slot 2: entries 2, 3, 4
//     child     7   7  12   1  256
#[derive_where(Clone, Copy; C)]
pub struct GenericListArray<O, C> {
    pub place: u64,
    pub slots: Slots,
    pub field: Field,
    pub child: C,
    pub kind: PhantomData<O>,
}
