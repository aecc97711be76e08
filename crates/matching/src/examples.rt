// The worked states: what the definitions say of them, and that they keep what every state keeps.
ghost use Rattle.std.specs.Prelude.{◌≡◌};
ghost use Rattle.matching.specs.Examples.{TriangleReads, NestReads, KeptWalk, KeptNest};

// How many states are worked here.
pub fn worked_states() -> u8
    ensures count { result ≡ 10 }
    ensures triangle { TriangleReads }
    ensures nest { NestReads }
    ensures walk { KeptWalk }
    ensures nested { KeptNest }
{
    10
}
