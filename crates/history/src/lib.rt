#![tactic(auto)]

ghost use Rattle.std.specs.Prelude.{◌≡◌};
ghost use Rattle.history.specs.Moments.{DistanceLaw, RunsGoOn, GivenOut};
ghost use Rattle.history.specs.Calls.{CallsLead};

// After every list of calls each handle shows what its first handle showed, the distance further on; one call more
// leads on from wherever a list of calls leads; every handle rests on bits that were given out; and each kind of call
// leads on by what its contract says. Answers how many laws these are.
pub fn runs_hold() -> u8
    ensures counts { result ≡ 4 }
    ensures distance { DistanceLaw }
    ensures goes_on { RunsGoOn }
    ensures given_out { GivenOut }
    ensures calls { CallsLead }
{
    4
}
