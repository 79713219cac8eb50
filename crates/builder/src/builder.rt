ghost use Rattle.std.specs.Prelude.{◌≡◌, ℕ, ◌*◌, ◌<◌, Bool, List, [], length, is_ok, if◌then◌else◌, Ok, Result};
ghost use Rattle.layout.specs.Spans.{Span, Within, Alike};
ghost use Rattle.ledger.specs.declared.stop.Stop.{Stop as Halt};
ghost use Rattle.history.specs.Entry.{Entry};
ghost use Rattle.builder.specs.declared.step.Step.{Step as OneStep};
ghost use Rattle.builder.specs.Meaning.{Behaviour, on_body, form_in};
ghost use Rattle.builder.specs.Growth.{Lawful};
ghost use Rattle.builder.specs.Steps.{erased, Goes, Shows};

use crate::step::Step;
use array::array::Array;
use ledger::stop::Stop;

// A builder: a layer with what is below it. It holds numbers of places in the body; its slots are on the body.
pub trait ArrayBuilder: Sized {
    type Out: Array;

    // The length of its body, and how many slots it holds.
    ghost size: { Self → ℕ };

    ghost count: { Self → ℕ };
    // Its meaning on a body.
    ghost means: { Self → List ℕ → Behaviour };
    // What slot i shows beside its mark: a layer's window, in a null slot too; a leaf's entry.
    ghost shown: { Self → List ℕ → ℕ → Entry };
    // The bits of its nest's reservations, and those that the meaning rests on.
    ghost own: { Self → List Span };

    ghost rests: { Self → List Span };
    // Its places lie in a body of its length; no layer's share a bit with those below it.
    ghost inside: { Self → Type 0 };

    ghost apart: { Self → Type 0 };
    // The builder after a taken step, and the body.
    ghost next: { Self → ℕ → OneStep → Self };

    ghost puts: { Self → ℕ → OneStep → List ℕ → List ℕ };
    // What a snapshot gives.
    ghost shot: { Self → List ℕ → Result Self.Out Halt };

    // The length of its body.
    fn body_len(&self) -> u64
        ensures { result ≡ size self.now };

    // How many slots it holds.
    fn len(&self) -> u64
        ensures { result ≡ count self.now };

    // A step at a depth: 0 acts on this layer, d on the layer d below.
    fn take(&mut self, body: &mut [u8], depth: u32, step: Step) -> Result<(), Stop>
        ensures answers { result ≡ on_body (size self.old) body.old ((means self.old body.old []).replies depth step) }
        ensures leaves { self.new ≡ (if is_ok result then next self.old depth step else self.old) }
        ensures writes { body.new ≡ (if is_ok result then puts self.old depth step body.old else body.old) };

    // A handle on the slots held so far.
    fn finish_cloned(&self, body: &[u8]) -> Result<Self::Out, Stop>
        ensures { inside self.now → result ≡ on_body (size self.now) body.now (shot self.now body.now) };

    ghost counted: { (a : Self) (b : List ℕ) → length (means a b []).slots ≡ count a };

    // Steps at depth 0 add behind, deeper ones fill windows that are still short.
    ghost lawful: { (a : Self) (b : List ℕ) → Lawful (means a b) };

    // Bodies alike in the rested bits give equal meanings; rested bits are own bits, which lie in the body.
    ghost framed: { (a : Self) (b c : List ℕ) → Alike (rests a) b c → means a b ≡ means a c };

    ghost owned: { (a : Self) → inside a → (k : ℕ) → Within (rests a) k → Within (own a) k };

    ghost within: { (a : Self) → inside a → (k : ℕ) → Within (own a) k → k < 8 * size a };

    // A taken step keeps the length and the places, and leaves what the meaning says.
    ghost same_size: { (a : Self) (d : ℕ) (s : OneStep) → size (next a d s) ≡ size a };

    ghost stays: { (a : Self) (b : List ℕ) (d : ℕ) (s : OneStep) → inside a → (means a b []).replies d s ≡ Ok tt → inside (next a d s) };

    ghost keeps_apart: { (a : Self) (b : List ℕ) (d : ℕ) (s : OneStep) → inside a → apart a → (means a b []).replies d s ≡ Ok tt → apart (next a d s) };

    ghost goes: { (a : Self) (b : List ℕ) (d : ℕ) (s : OneStep) → inside a → apart a → length b ≡ size a → (means a b []).replies d s ≡ Ok tt → Goes (means a b) (means (next a d s) (puts a d s b)) (erased (own a) (rests a)) (erased (own (next a d s)) (rests (next a d s))) b (puts a d s b) d s };

    // A snapshot has the form or the stop of the meaning, and shows its slots.
    ghost shot_form: { (a : Self) (b : List ℕ) → form_in Self.Out.Array.form (shot a b) ≡ (means a b []).shot };

    ghost shot_shows: { (a : Self) (b : List ℕ) (h : Self.Out) → inside a → shot a b ≡ Ok h → Shows (means a b []).slots (shown a b) (rests a) (count a) (Self.Out.Array.size h) (Self.Out.Array.mark h b) (Self.Out.Array.entry h b) (Self.Out.Array.shown h b) (Self.Out.Array.spans h) };
}
