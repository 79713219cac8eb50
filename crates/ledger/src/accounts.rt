ghost use Rattle.std.specs.Prelude.{◌≡◌};
ghost use Rattle.ledger.specs.Ledger.{Kept};

use crate::ledger::Ledger;

impl Ledger {
    // The body's length.
    pub fn length(&self) -> u64
        ensures answers { result ≡ self.now.length }
        ensures keeps { Kept self.now }
    {
        self.length
    }

    // How many bytes are loaded.
    pub fn loaded(&self) -> u64
        ensures answers { result ≡ self.now.loaded }
        ensures keeps { Kept self.now }
    {
        self.loaded
    }
}
