ghost use Rattle.std.specs.Prelude.{◌≡◌, ℕ, ◌+◌, ◌*◌, ◌/◌, ◌<◌, ◌≤◌, true, false, length, IfOk, ◌≢◌};
ghost use Rattle.layout.specs.Bits.{bit_at};
ghost use Rattle.slots.specs.Bounds.{length_limit};
ghost use Rattle.slots.specs.Trials.{new_slots};
ghost use Rattle.trails.specs.Blocks.{NumbersIn, MarksIn, ZerosBehind, Holds};

use crate::fault::Refusal;
use layout::words::put;
use ledger::ledger::Ledger;
use primitive_array::UInt16Array;
use primitive_array::types::UInt16Type;
use rows::put_bit;
use slots::null_buffer::NullBuffer;
use std::alloc::{AllocError, Global};

// A block of loaded chute numbers: its body, and a handle on all its slots.
#[derive(Drop)]
pub struct Block {
    pub body: Vec<u8>,
    pub whole: UInt16Array,
}

impl Block {
    // A block with marks: they stand right behind the numbers.
    pub fn marked(heap: Global, slots: &[Option<u16>]) -> Result<Block, Refusal<'static>>
        ensures { IfOk result (λ b. Holds true slots.now b) }
    {
        let n = slots.len() as u64;
        let body = marked_body(heap, slots)?;
        let marks = NullBuffer {
            place: 2 * n,
            len: n,
        };
        tried(body, n, Some(marks))
    }

    // A block without marks; a slot without a number has the number 0.
    pub fn plain(heap: Global, slots: &[Option<u16>]) -> Result<Block, Refusal<'static>>
        ensures { IfOk result (λ b. Holds false slots.now b) }
    {
        let n = slots.len() as u64;
        let body = body_of(heap, slots, 0)?;
        tried(body, n, None)
    }
}

// A trial of so many numbers at the front of a body that is all loaded.
fn tried(body: Vec<u8>, n: u64, nulls: Option<NullBuffer>) -> Result<Block, Refusal<'static>>
    ensures { IfOk result (λ b. (b.body ≡ body) × (b.whole.place ≡ 0) × (b.whole.slots ≡ new_slots n nulls) × (n ≤ length_limit)) }
{
    let length = body.len() as u64;
    let ledger = Ledger::open(length, length)?;
    let whole = primitive_array::try_new::<UInt16Type>(&ledger, &body, 0, n, nulls)?;
    Ok(Block { body, whole })
}

// The numbers, two bytes each, and right behind them the marks.
fn marked_body(heap: Global, slots: &[Option<u16>]) -> Result<Vec<u8>, AllocError>
    ensures { IfOk result (λ v. NumbersIn slots.now v.items × MarksIn slots.now (2 * length slots.now) v.items) }
{
    let n = slots.len();
    let mut body = body_of(heap, slots, n.div_ceil(8))?;
    put_marks(&mut body, 2 * n, slots);
    Ok(body)
}

// The numbers, two bytes each, and so many zero bytes.
fn body_of(heap: Global, slots: &[Option<u16>], spare: usize) -> Result<Vec<u8>, AllocError>
    requires { spare ≤ length slots.now }
    ensures { IfOk result (λ v. NumbersIn slots.now v.items × ZerosBehind slots.now spare v.items) }
{
    let mut body = vec![in heap; 0u8; 2 * slots.len() + spare]?;
    put_numbers(&mut body, slots);
    Ok(body)
}

// Writes the numbers from the first byte on, 0 for a slot without one.
fn put_numbers(body: &mut [u8], slots: &[Option<u16>])
    requires { 2 * length slots.now ≤ length body.old }
    ensures numbers { NumbersIn slots.now body.new }
    ensures rest { (t : ℕ) → 16 * length slots.now ≤ t → bit_at body.new t ≡ bit_at body.old t }
{
    for (k, slot) in slots.iter().enumerate() {
        let _ = put(body, 2 * k as u64, slot.unwrap_or(0));
    }
}

// Writes the marks: present where a slot has a number.
fn put_marks(body: &mut [u8], place: usize, slots: &[Option<u16>])
    requires { 8 * place + length slots.now ≤ 8 * length body.old }
    ensures marks { MarksIn slots.now place body.new }
    ensures rest { (t : ℕ) → t < 8 * place → bit_at body.new t ≡ bit_at body.old t }
{
    for (k, slot) in slots.iter().enumerate() {
        put_bit(body, place as u64, k as u64, slot.is_some());
    }
}
