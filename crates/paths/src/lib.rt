// Walks from root to root, laying bare, and why an augment keeps what every board keeps.
#![tactic(auto)]

pub mod examples;

ghost use Rattle.std.specs.Prelude.{◌≡◌, ◌-◌, ◌/◌};
ghost use Rattle.paths.specs.Theorems.{BareLaw, OneResult, AugmentKeeps, TwoFewerLoose, Exchanges, OneAugment};

// How many offers are paired inside a node of so many members, once one of them is laid bare.
pub fn pairs_inside(held: u32) -> u32
    ensures value { result ≡ held / 2 }
    ensures law { BareLaw }
    ensures one { OneResult }
{
    held / 2
}

// How many members are loose after an augment.
pub fn loose_after(loose: u32) -> u32
    ensures value { result ≡ loose - 2 }
    ensures keeps { AugmentKeeps }
    ensures fewer { TwoFewerLoose }
    ensures exchanges { Exchanges }
    ensures one { OneAugment }
{
    loose.saturating_sub(2)
}
