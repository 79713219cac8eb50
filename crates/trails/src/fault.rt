use ledger::stop::Stop;
use std::alloc::AllocError;
use thiserror::Error;

// Why a line is not understood.
#[derive(Clone, Copy, Debug, Error)]
pub enum Fault<'a> {
    #[error("unknown word {0}")]
    UnknownWord(&'a str),
    #[error("{0} is not a number")]
    NotNumber(&'a str),
    // A number that is above the largest that may stand there.
    #[error("number {0} above {1}")]
    NumberAbove(&'a str, u64),
    #[error("number missing")]
    NumberMissing,
    #[error("too many words, from {0} on")]
    TooManyWords(&'a str),
    // A cut before any block.
    #[error("no block yet")]
    NoBlock,
    #[error("no memory left")]
    NoMemory(#[from] AllocError),
}

// Why a line shows nothing.
#[derive(Clone, Copy, Debug, Error)]
pub enum Refusal<'a> {
    #[error("{0}")]
    Stopped(#[from] Stop),
    #[error("not understood: {0}")]
    NotUnderstood(#[from] Fault<'a>),
}

impl From<AllocError> for Refusal<'_> {
    fn from(e: AllocError) -> Self {
        Refusal::NotUnderstood(Fault::from(e))
    }
}
