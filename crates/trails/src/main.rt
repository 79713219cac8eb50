// Reads a sample of commands from standard input and prints a report.
//
// One command a line. `#` starts a comment that goes to the end of the line; blank lines are skipped.
//
//   block NUMBER..    loads a new block of slots with marks. NUMBER is a chute number from 0 to 65535, or `-` for a slot
//                     where nothing was read: its mark is null and its number 0.
//   plain NUMBER..    loads a new block without marks; every NUMBER is a chute number.
//   cut START N       shows the N slots of the block from the slot START on.
//   then START N      the same of what was shown last, so a cut of a cut.
//   foreign BYTES     asks what was shown last again, on another body that has so many zero bytes (0 to 65535).
//
// START and N are numbers from 0 to 18446744073709551615. A block or a cut that is taken is shown: how many slots it
// has, how many null marks, and the slots' numbers in order, `-` where the mark is null. A line that is stopped, or not
// understood, changes nothing, and the run goes on. The last line of the report counts the lines.
#![tactic(auto)]

mod block;
mod command;
mod fault;
mod listing;
mod report;
mod session;

use session::Session;
use std::io;

fn main(rt: HostRuntime) -> io::Result<()> {
    let heap = rt.alloc();
    let mut session = Session::default();
    for line in rt.lines(heap) {
        let line = line?;
        if let Some(report) = session.answer(heap, line.as_str()) {
            println!(rt; "{report}")?;
        }
    }
    let tally = session.tally();
    println!(rt; "{tally}")
}
