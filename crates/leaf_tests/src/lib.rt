// Tests of the leaves at their edges: trials and questions.
#![tactic(auto)]

ghost use Rattle.std.specs.Prelude.{◌≡◌, Some, None, MatchResult};
ghost use Rattle.ledger.specs.Stops.{number_of};

use ledger::stop::Stop;

// A stop's number and depth; None where the call was taken.
pub fn stop_of<T: Drop>(reply: Result<T, Stop>) -> Option<(u8, u32)>
    ensures { MatchResult reply (λ _. result ≡ None) (λ s. result ≡ Some (number_of s.reason, s.depth)) }
{
    match reply {
        Ok(_) => None,
        Err(stop) => Some((stop.reason.number(), stop.depth)),
    }
}

#[cfg(test)]
mod questions;
#[cfg(test)]
mod trials;
