// Worked examples of laying bare: which mates it leaves, and that it leaves no others.
ghost use Rattle.std.specs.Prelude.{◌≡◌};
ghost use Rattle.paths.specs.Examples.{RingBare, NestBare};

// How many nodes are laid bare here.
pub fn worked_bares() -> u8
    ensures count { result ≡ 4 }
    ensures ring { RingBare }
    ensures nest { NestBare }
{
    4
}
