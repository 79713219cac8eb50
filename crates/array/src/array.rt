ghost use Rattle.std.specs.Prelude.{◌≡◌, ℕ, ◌+◌, ◌<◌, ◌≤◌, Bool, true, false, not, List, ℤ, Some, Option};
ghost use Rattle.layout.specs.Spans.{Span, Within, Alike, in_body};
ghost use Rattle.layout.specs.Needs.{Needed};
ghost use Rattle.history.specs.Entry.{Entry, is_absent};
ghost use Rattle.history.specs.Moments.{Handle};
ghost use Rattle.history.specs.Calls.{seen as seen_as};
ghost use Rattle.form.specs.declared.data_type.DataType.{DataType as Form};
ghost use Rattle.slots.specs.Bounds.{length_limit};
ghost use Rattle.slots.specs.Replies.{ask_reply, count_reply, find_reply, slice_reply};
ghost use Rattle.array.specs.Windows.{Range, Inside, window_in, entry_in};

use form::data_type::DataType;
use ledger::stop::Stop;

// An array: what a handle means on any body of bytes, and the questions that answer by it.
pub trait Array: Sized {
    // How many slots there are, and the form.
    ghost size: { Self → ℕ };

    ghost form: { Self → Form };
    // Whether mark i is present, and the bits that this is worked out from.
    ghost mark: { Self → List ℕ → ℕ → Bool };

    ghost mark_need: { Self → ℕ → List Span };
    // Entry i, and the bits that its absence is worked out from.
    ghost entry: { Self → List ℕ → ℕ → Entry };

    ghost absent_need: { Self → ℕ → List Span };
    // What slot i shows beside its mark: a list's window, in a null slot too; a leaf's entry.
    ghost shown: { Self → List ℕ → ℕ → Entry };
    // The bits that the meaning rests on.
    ghost spans: { Self → List Span };
    // The n slots from a slot on.
    ghost cut: { Self → ℕ → ℕ → Self };
    // The handle with its type erased.
    ghost seen: { Self → Handle };

    fn len(&self) -> u64
        ensures { result ≡ size self.now };

    fn data_type(&self) -> DataType
        ensures { result ≡ form self.now };

    // Whether mark i is null.
    fn is_null(&self, body: &[u8], i: u64) -> Result<bool, Stop>
        ensures { result ≡ ask_reply (size self.now) (mark_need self.now) (λ j. not (mark self.now body.now j)) body.now i };

    // Whether mark i is present.
    fn is_valid(&self, body: &[u8], i: u64) -> Result<bool, Stop>
        ensures { result ≡ ask_reply (size self.now) (mark_need self.now) (mark self.now body.now) body.now i }
    {
        self.is_null(body, i).map(|null| !null)
    }

    // How many marks are null.
    fn null_count(&self, body: &[u8]) -> Result<u64, Stop>
        ensures { result ≡ count_reply (size self.now) (mark_need self.now) (λ j. not (mark self.now body.now j)) body.now };

    // How many entries are absent.
    fn logical_null_count(&self, body: &[u8]) -> Result<u64, Stop>
        ensures { result ≡ count_reply (size self.now) (absent_need self.now) (λ j. is_absent (entry self.now body.now j)) body.now };

    // The n slots from the slot `start` on.
    fn slice(&self, start: u64, n: u64) -> Result<Self, Stop>
        ensures { result ≡ slice_reply (size self.now) start n (cut self.now start n) };

    // Whether all rested bits lie inside the body.
    fn fits(&self, body: &[u8]) -> bool
        ensures { result ≡ in_body (spans self.now) body.now };

    ghost sight: { (a : Self) → seen a ≡ seen_as (size a) (mark a) (shown a) (spans a) };

    ghost limit: { (a : Self) → size a ≤ length_limit };

    // A null mark means an absent entry.
    ghost null_absent: { (a : Self) (b : List ℕ) (i : ℕ) → i < size a → mark a b i ≡ false → is_absent (entry a b i) ≡ true };

    // A present slot shows its entry.
    ghost shown_entry: { (a : Self) (b : List ℕ) (i : ℕ) → i < size a → mark a b i ≡ true → shown a b i ≡ entry a b i };

    // The named bits are enough for the answers, and none of them is idle.
    ghost mark_needs: { (a : Self) (i : ℕ) → i < size a → Needed (mark_need a i) (λ b. mark a b i) };

    ghost absent_needs: { (a : Self) (i : ℕ) → i < size a → Needed (absent_need a i) (λ b. is_absent (entry a b i)) };

    // Bodies alike in the rested bits give equal meanings.
    ghost mark_alike: { (a : Self) (b c : List ℕ) → Alike (spans a) b c → (i : ℕ) → i < size a → mark a b i ≡ mark a c i };

    ghost entry_alike: { (a : Self) (b c : List ℕ) → Alike (spans a) b c → (i : ℕ) → i < size a → entry a b i ≡ entry a c i };

    ghost shown_alike: { (a : Self) (b c : List ℕ) → Alike (spans a) b c → (i : ℕ) → i < size a → shown a b i ≡ shown a c i };

    // A cut has n slots, the same form, the slots from its start on, and rests on no other bits.
    ghost cut_size: { (a : Self) (s n : ℕ) → s + n ≤ size a → size (cut a s n) ≡ n };

    ghost cut_form: { (a : Self) (s n : ℕ) → s + n ≤ size a → form (cut a s n) ≡ form a };

    ghost cut_mark: { (a : Self) (s n : ℕ) → s + n ≤ size a → (b : List ℕ) (i : ℕ) → i < n → mark (cut a s n) b i ≡ mark a b (s + i) };

    ghost cut_entry: { (a : Self) (s n : ℕ) → s + n ≤ size a → (b : List ℕ) (i : ℕ) → i < n → entry (cut a s n) b i ≡ entry a b (s + i) };

    ghost cut_shown: { (a : Self) (s n : ℕ) → s + n ≤ size a → (b : List ℕ) (i : ℕ) → i < n → shown (cut a s n) b i ≡ shown a b (s + i) };

    ghost cut_spans: { (a : Self) (s n : ℕ) → s + n ≤ size a → (k : ℕ) → Within (spans (cut a s n)) k → Within (spans a) k };
}

// An array whose slots can be asked for what they hold.
pub trait ArrayAccessor: Array {
    type Item;

    // What slot i holds, null or not (nothing: a list's words that are no range).
    ghost item: { Self → List ℕ → ℕ → Option Self.Item };
    // The numbers that it is worked out from (a leaf's number, a list's range), and the bits that these are worked out from.
    ghost source: { Self → List ℕ → ℕ → Option (ℤ × ℤ) };

    ghost item_need: { Self → ℕ → List Span };
    // An item as an entry.
    ghost told: { Self.Item → List ℕ → Entry };

    fn value(&self, body: &[u8], i: u64) -> Result<Self::Item, Stop>
        ensures { result ≡ find_reply (Self.Array.size self.now) (item_need self.now) (item self.now body.now) body.now i };

    ghost item_needs: { (a : Self) (i : ℕ) → i < Self.Array.size a → Needed (item_need a i) (λ b. source a b i) };

    ghost item_from: { (a : Self) (b c : List ℕ) (i : ℕ) → i < Self.Array.size a → source a b i ≡ source a c i → item a b i ≡ item a c i };

    // A present slot's entry is what its item tells.
    ghost item_told: { (a : Self) (b : List ℕ) (i : ℕ) (x : Self.Item) → i < Self.Array.size a → item a b i ≡ Some x → Self.Array.mark a b i ≡ true → Self.Array.entry a b i ≡ told x b };
}

// An array whose slots are ranges of a child.
pub trait ListLikeArray: Array {
    type Child: Array;

    ghost child: { Self → Self.Child };
    // Slot i's range in the child, and the bits that it is worked out from.
    ghost range: { Self → List ℕ → ℕ → Option Range };

    ghost range_need: { Self → ℕ → List Span };

    fn values(&self) -> Self::Child
        ensures { result ≡ child self.now };

    // The first entry and the end of slot i's range.
    fn element_range(&self, body: &[u8], i: u64) -> Result<(u64, u64), Stop>
        ensures { result ≡ find_reply (Self.Array.size self.now) (range_need self.now) (range self.now body.now) body.now i };

    ghost range_needs: { (a : Self) (i : ℕ) → i < Self.Array.size a → Needed (range_need a i) (λ b. range a b i) };

    ghost range_inside: { (a : Self) (b : List ℕ) (i : ℕ) → i < Self.Array.size a → Inside (Self.Child.Array.size (child a)) (range a b i) };

    // A slot shows the child's entries in its range, and its entry is absent where its mark is null.
    ghost shown_window: { (a : Self) (b : List ℕ) (i : ℕ) → i < Self.Array.size a → Self.Array.shown a b i ≡ window_in (Self.Child.Array.entry (child a) b) (range a b i) };

    ghost entry_window: { (a : Self) (b : List ℕ) (i : ℕ) → i < Self.Array.size a → Self.Array.entry a b i ≡ entry_in (Self.Array.mark a b i) (Self.Child.Array.entry (child a) b) (range a b i) };
}
