#![tactic(auto)]

ghost use Rattle.std.specs.Prelude.{◌≡◌, MatchResult};
ghost use Rattle.history.specs.Calls.{OpenLeads, ReserveLeads, StopLeads};
ghost use Rattle.ledger.specs.Ledger.{Kept, opening, place_behind, reservation, reserved, reservation2, reserved2};

pub mod accounts;
pub mod ledger;
pub mod stop;

use ledger::Ledger;
use stop::{Reason, Stop};

impl Ledger {
    // A ledger on a body of so many bytes, of which the first are loaded.
    pub fn open(length: u64, loaded: u64) -> Result<Ledger, Stop>
        ensures answers { result ≡ opening length loaded }
        ensures leads { MatchResult result (λ _. OpenLeads length loaded) (λ _. StopLeads) }
    {
        if loaded > length {
            return Err(Reason::BeyondBytes.into());
        }
        Ok(Ledger {
            length,
            loaded,
            end: loaded,
        })
    }

    // A place for so many bytes.
    pub fn reserve(&mut self, bytes: u64) -> Result<u64, Stop>
        ensures answers { result ≡ reservation self.old bytes }
        ensures leaves { self.new ≡ reserved self.old bytes }
        ensures leads { ReserveLeads self.old.end self.new.end }
        ensures kept { Kept self.old }
        ensures keeps { Kept self.new }
    {
        let Ok((start, end)) = self.place_behind(self.end, bytes as u128) else {
            return Err(Reason::NoPlaceLeft.into());
        };
        self.end = end;
        Ok(start)
    }

    // Places for two runs of bytes, one after the other: both or neither.
    pub fn reserve_two(&mut self, bytes: u128, more: u128) -> Result<(u64, u64), Stop>
        ensures answers { result ≡ reservation2 self.old bytes more }
        ensures leaves { self.new ≡ reserved2 self.old bytes more }
        ensures leads { ReserveLeads self.old.end self.new.end }
        ensures kept { Kept self.old }
        ensures keeps { Kept self.new }
    {
        let Ok((first, between)) = self.place_behind(self.end, bytes) else {
            return Err(Reason::NoPlaceLeft.into());
        };
        let Ok((second, after)) = self.place_behind(between, more) else {
            return Err(Reason::NoPlaceLeft.into());
        };
        self.end = after;
        Ok((first, second))
    }

    // Start and end of a place for so many bytes behind `end`.
    fn place_behind(&self, end: u64, bytes: u128) -> Result<(u64, u64), Stop>
        ensures { result ≡ place_behind self.now.length end bytes }
    {
        let start = (end as u128).next_multiple_of(8);
        let end = start.saturating_add(bytes);
        if end > self.length as u128 {
            return Err(Reason::NoPlaceLeft.into());
        }
        Ok((start as u64, end as u64))
    }
}
