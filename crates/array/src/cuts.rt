ghost use Rattle.std.specs.Prelude.{◌≡◌, ℕ, ◌+◌, ◌≤◌, MatchResult};
ghost use Rattle.history.specs.Calls.{CutLeads, StopLeads};
ghost use Rattle.slots.specs.Replies.{slice_reply};

use crate::array::Array;
use ledger::stop::Stop;

// A cut of any array, which leads on from any moment that has it.
pub fn cut<A: Array>(a: &A, start: u64, n: u64) -> Result<A, Stop>
    ensures answers { result ≡ slice_reply (A.Array.size a.now) start n (A.Array.cut a.now start n) }
    ensures leads { MatchResult result (λ h. CutLeads (A.Array.seen a.now) start n (A.Array.seen h)) (λ _. StopLeads) }
{
    a.slice(start, n)
}
