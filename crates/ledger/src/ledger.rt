use std::marker::Model;

// What is given out of one body: its length, the bytes loaded at its front, and the end of the last reservation
// (before the first one: of the loaded bytes). It is neither Copy nor Clone, so that a place is given out once.
#[derive(Drop)]
pub struct Ledger {
    pub(crate) length: u64,
    pub(crate) loaded: u64,
    pub(crate) end: u64,
}

impl Model for Ledger {
    ghost use Rattle.ledger.specs.Ledger.{Accounts, Kept};

    ghost Value = { Accounts };

    ghost view = { λ g. record { length = g.length; loaded = g.loaded; end = g.end } };

    ghost invariant = { λ g. Kept (record { length = g.length; loaded = g.loaded; end = g.end }) };
}
