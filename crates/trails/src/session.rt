ghost use Rattle.std.specs.Prelude.{◌≡◌, replicate, IfSome, IfOk, OnErr};
ghost use Rattle.trails.specs.Listings.{Lists};
ghost use Rattle.trails.specs.Sessions.{CutShown, Taken};

use crate::block::Block;
use crate::command::{Command, Window, parse};
use crate::fault::{Fault, Refusal};
use crate::listing::{Listing, list};
use crate::report::{Report, Shown, Tally};
use array::cuts::cut;
use primitive_array::UInt16Array;
use std::alloc::Global;

// What later lines may ask: the block loaded last, and the handle shown last.
#[derive(Drop)]
struct Current {
    block: Block,
    last: UInt16Array,
}

// A run over the lines of a sample.
#[derive(Default, Drop)]
pub struct Session {
    current: Option<Current>,
    tally: Tally,
}

impl Session {
    pub fn tally(&self) -> Tally
        ensures { result ≡ self.now.tally }
    {
        self.tally
    }

    // What the next line gives; None where it is blank or a comment.
    pub fn answer<'a>(&mut self, heap: Global, text: &'a str) -> Option<Report<'a>>
        ensures stays { IfSome result (λ r. OnErr r.outcome (self.new.current ≡ self.old.current)) }
        ensures shows { IfSome result (λ r. IfOk r.outcome (λ s. Taken s.command self.old.current s.listing)) }
    {
        self.tally.lines = self.tally.lines.saturating_add(1);
        let outcome = self.outcome(heap, text).transpose()?;
        self.tally.count(&outcome);
        Some(Report {
            line: self.tally.lines,
            outcome,
        })
    }

    // What a line asks for, with its listing; where the line is refused, nothing changes.
    fn outcome<'a>(&mut self, heap: Global, text: &'a str) -> Result<Option<Shown>, Refusal<'a>>
        ensures stays { OnErr result (self.new ≡ self.old) }
        ensures shows { IfOk result (λ o. IfSome o (λ s. Taken s.command self.old.current s.listing)) }
    {
        let Some(command) = parse(heap, text)? else {
            return Ok(None);
        };
        let listing = self.obey(heap, &command)?;
        Ok(Some(Shown { command, listing }))
    }

    // Does what a command asks; where it is refused, nothing changes.
    fn obey(&mut self, heap: Global, command: &Command) -> Result<Listing, Refusal<'static>>
        ensures stays { OnErr result (self.new ≡ self.old) }
        ensures shows { IfOk result (λ l. Taken command.now self.old.current l) }
    {
        match command {
            Command::Block(slots) => self.load(heap, Block::marked(heap, slots)?),
            Command::Plain(slots) => self.load(heap, Block::plain(heap, slots)?),
            Command::Cut(window) => {
                let current = self.current.as_mut().ok_or(Fault::NoBlock)?;
                current.show_cut(heap, current.block.whole, *window)
            }
            Command::Then(window) => {
                let current = self.current.as_mut().ok_or(Fault::NoBlock)?;
                current.show_cut(heap, current.last, *window)
            }
            Command::Foreign(bytes) => {
                let current = self.current.as_ref().ok_or(Fault::NoBlock)?;
                current.ask_elsewhere(heap, *bytes)
            }
        }
    }

    // Takes a block in and shows it.
    fn load(&mut self, heap: Global, block: Block) -> Result<Listing, Refusal<'static>>
        ensures stays { OnErr result (self.new ≡ self.old) }
        ensures shows { IfOk result (λ l. Lists block.whole.place block.whole.slots block.body.items l) }
    {
        let last = block.whole;
        let listing = list(heap, last, &block.body)?;
        self.current = Some(Current { block, last });
        Ok(listing)
    }
}

impl Current {
    // Shows a cut of a handle, which is then the handle shown last.
    fn show_cut(
        &mut self,
        heap: Global,
        handle: UInt16Array,
        window: Window,
    ) -> Result<Listing, Refusal<'static>>
        ensures { CutShown handle window self.old self.new result }
    {
        let made = cut(&handle, window.start, window.n)?;
        let listing = list(heap, made, &self.block.body)?;
        self.last = made;
        Ok(listing)
    }

    // Asks the handle shown last on another body, of so many zero bytes.
    fn ask_elsewhere(&self, heap: Global, bytes: u16) -> Result<Listing, Refusal<'static>>
        ensures { IfOk result (λ l. Lists self.now.last.place self.now.last.slots (replicate bytes 0) l) }
    {
        let other = vec![in heap; 0u8; usize::from(bytes)]?;
        list(heap, self.last, &other)
    }
}
