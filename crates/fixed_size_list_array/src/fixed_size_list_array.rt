use form::data_type::Field;
use slots::slots::Slots;

// A fixed list over any child: slot k's entries are the child's from k × size on, `size` of them. There are no words: a cut
// slices the child.
//
//     size 2    child  7   7  12   1       slot 0: entries 0, 1    slot 1: entries 2, 3
#[derive_where(Clone, Copy; C)]
pub struct FixedSizeListArray<C> {
    pub slots: Slots,
    pub size: u32,
    pub field: Field,
    pub child: C,
}
