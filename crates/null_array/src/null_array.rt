ghost use Rattle.std.specs.Prelude.{◌≤◌};
ghost use Rattle.slots.specs.Bounds.{length_limit};

// A null leaf: a length alone. Every mark is present and every entry absent.
#[derive(Clone, Copy)]
pub struct NullArray {
    pub len: u64,
    ghost limit: { len ≤ length_limit },
}
