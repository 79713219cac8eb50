ghost use Rattle.std.specs.Prelude.{◌≡◌};
ghost use Rattle.builder.specs.Tables.{step_slots};

use crate::step::Step;

impl Step {
    // How many slots the step makes where it is taken.
    pub fn slots(self) -> u64
        ensures { result ≡ step_slots self }
    {
        match self {
            Step::Nulls(n) => n,
            Step::Value(_) | Step::Null | Step::Close(_) => 1,
        }
    }
}
