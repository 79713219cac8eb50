ghost use Rattle.std.specs.Prelude.{◌≡◌};
ghost use Rattle.trails.specs.Tallies.{counted};

use crate::command::Command;
use crate::fault::Refusal;
use crate::listing::Listing;
use std::fmt;

// A command that is taken, and what it lists.
#[derive(Drop)]
pub struct Shown {
    pub command: Command,
    pub listing: Listing,
}

impl fmt::Display for Shown {
    fn fmt<W: fmt::Write>(&self, f: &mut fmt::Formatter<W>) -> fmt::Result {
        let Shown { command, listing } = self;
        write!(f, "{command}: {listing}")
    }
}

// What a line gives.
pub type Outcome<'a> = Result<Shown, Refusal<'a>>;

// A line of the report: which line of the sample it answers, and what that gives.
#[derive(Drop)]
pub struct Report<'a> {
    pub line: u64,
    pub outcome: Outcome<'a>,
}

impl fmt::Display for Report<'_> {
    fn fmt<W: fmt::Write>(&self, f: &mut fmt::Formatter<W>) -> fmt::Result {
        let line = self.line;
        match &self.outcome {
            Ok(shown) => write!(f, "line {line}: {shown}"),
            Err(refusal) => write!(f, "line {line}: {refusal}"),
        }
    }
}

// How many lines were read, and what became of them.
#[derive(Clone, Copy, Default)]
pub struct Tally {
    pub lines: u64,
    pub shown: u64,
    pub stopped: u64,
    pub not_understood: u64,
}

impl Tally {
    // Counts what a line gave.
    pub fn count(&mut self, outcome: &Outcome<'_>)
        ensures { self.new ≡ counted self.old outcome.now }
    {
        match outcome {
            Ok(_) => self.shown = self.shown.saturating_add(1),
            Err(Refusal::Stopped(_)) => self.stopped = self.stopped.saturating_add(1),
            Err(Refusal::NotUnderstood(_)) => self.not_understood = self
                .not_understood
                .saturating_add(1),
        }
    }
}

impl fmt::Display for Tally {
    fn fmt<W: fmt::Write>(&self, f: &mut fmt::Formatter<W>) -> fmt::Result {
        let Tally {
            lines,
            shown,
            stopped,
            not_understood,
        } = *self;
        write!(
            f,
            "{lines} lines read: {shown} shown, {stopped} stopped, {not_understood} not understood"
        )
    }
}
