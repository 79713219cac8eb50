ghost use Rattle.std.specs.Prelude.{◌≡◌};
ghost use Rattle.slots.specs.Replies.{find_reply};
ghost use Rattle.array.specs.Lists.{slice_in};

use crate::array::{Array, ListLikeArray};
use ledger::stop::Stop;

// What a slot of any list holds: the child's slice on its range.
pub fn list_value<L: ListLikeArray>(list: &L, body: &[u8], i: u64) -> Result<L::Child, Stop>
where
    L::Child: Drop,
    ensures { result ≡ find_reply (L.Array.size list.now) (L.ListLikeArray.range_need list.now) (λ j. slice_in (L.Child.Array.cut (L.ListLikeArray.child list.now)) (L.ListLikeArray.range list.now body.now j)) body.now i }
{
    let (from, to) = list.element_range(body, i)?;
    list.values().slice(from, to - from)
}
