use form::data_type::Field;
use slots::slots::Slots;
use std::marker::PhantomData;

// A view over any child: slot k's entries are the child's from start k on, as many as size k says. Starts are the words of
// kind O from the byte `starts` on, sizes those from the byte `sizes` on; slots may lie in any order and may overlap.
//
//     starts    0   2   2              slot 0: entries 0, 1    slot 1: none    slot 2: entries 2, 3, 4
//     sizes     2   0   3
//     child     7   7  12   1  256
#[derive_where(Clone, Copy; C)]
pub struct GenericListViewArray<O, C> {
    pub starts: u64,
    pub sizes: u64,
    pub slots: Slots,
    pub field: Field,
    pub child: C,
    pub kind: PhantomData<O>,
}
