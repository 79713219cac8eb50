#![tactic(auto)]

ghost use Rattle.std.specs.Prelude.{◌≡◌, length};
ghost use Rattle.worked.specs.Cases.{cases, CasesHold};

// How many cases were worked by hand; the definitions that the contracts use answer each of them so.
pub fn worked() -> u8
    ensures counts { result ≡ length cases }
    ensures hold { CasesHold }
{
    20
}
