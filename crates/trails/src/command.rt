ghost use Rattle.std.specs.Str.Parse.{ParsesUpTo};

use crate::fault::Fault;
use std::alloc::Global;
use std::fmt;
use std::num::IntErrorKind;
use std::str::SplitWhitespace;

// Neighbouring slots: the first one, and how many there are.
#[derive(Clone, Copy)]
pub struct Window {
    pub start: u64,
    pub n: u64,
}

// What a line asks for. A slot of a block is None where nothing was read.
#[derive(Drop)]
pub enum Command {
    Block(Vec<Option<u16>>),
    Plain(Vec<Option<u16>>),
    Cut(Window),
    Then(Window),
    Foreign(u16),
}

// The command without a block's numbers.
impl fmt::Display for Command {
    fn fmt<W: fmt::Write>(&self, f: &mut fmt::Formatter<W>) -> fmt::Result {
        match self {
            Command::Block(_) => write!(f, "block"),
            Command::Plain(_) => write!(f, "plain"),
            Command::Cut(Window { start, n }) => write!(f, "cut {start} {n}"),
            Command::Then(Window { start, n }) => write!(f, "then {start} {n}"),
            Command::Foreign(bytes) => write!(f, "foreign {bytes}"),
        }
    }
}

// The command that a line gives; None where the line is blank or a comment.
pub fn parse(heap: Global, line: &str) -> Result<Option<Command>, Fault<'_>> {
    let text = line.split_once('#').map_or(line, |(before, _)| before);
    let mut words = text.split_whitespace();
    let Some(word) = words.next() else {
        return Ok(None);
    };
    let command = match word {
        "block" => Command::Block(words.map(slot).try_collect(heap)?),
        "plain" => Command::Plain(words.map(|word| chute(word).map(Some)).try_collect(heap)?),
        "cut" => Command::Cut(two_numbers(words)?),
        "then" => Command::Then(two_numbers(words)?),
        "foreign" => Command::Foreign(bytes(words)?),
        _ => return Err(Fault::UnknownWord(word)),
    };
    Ok(Some(command))
}

// A slot of a block with marks.
fn slot(word: &str) -> Result<Option<u16>, Fault<'_>> {
    match word {
        "-" => Ok(None),
        _ => chute(word).map(Some),
    }
}

// The two numbers of a cut, and no word more.
fn two_numbers(mut words: SplitWhitespace<'_>) -> Result<Window, Fault<'_>> {
    let start = number(next_word(&mut words)?, u64::MAX)?;
    let n = number(next_word(&mut words)?, u64::MAX)?;
    no_more(words)?;
    Ok(Window { start, n })
}

// How many bytes another body has, and no word more.
fn bytes(mut words: SplitWhitespace<'_>) -> Result<u16, Fault<'_>> {
    let bytes = chute(next_word(&mut words)?)?;
    no_more(words)?;
    Ok(bytes)
}

fn next_word<'a>(words: &mut SplitWhitespace<'a>) -> Result<&'a str, Fault<'a>> {
    words.next().ok_or(Fault::NumberMissing)
}

fn no_more(mut words: SplitWhitespace<'_>) -> Result<(), Fault<'_>> {
    words
        .next()
        .map_or(Ok(()), |word| Err(Fault::TooManyWords(word)))
}

// A number of 16 bits.
fn chute(word: &str) -> Result<u16, Fault<'_>>
    ensures { ParsesUpTo 65535 10 word.now result }
{
    Ok(number(word, u64::from(u16::MAX))? as u16)
}

// The number that the word writes in decimal digits alone, where it is at most `largest`.
fn number(word: &str, largest: u64) -> Result<u64, Fault<'_>>
    ensures { ParsesUpTo largest 10 word.now result }
{
    if word.starts_with('+') {
        return Err(Fault::NotNumber(word));
    }
    match word.parse() {
        Ok(n) if n <= largest => Ok(n),
        Err(e) if *e.kind() != IntErrorKind::PosOverflow => Err(Fault::NotNumber(word)),
        _ => Err(Fault::NumberAbove(word, largest)),
    }
}
