// Why each step of a board keeps what every board keeps.
#![tactic(auto)]

pub mod label;

ghost use Rattle.std.specs.Prelude.{◌≡◌, ◌^◌, ◌<◌};
ghost use Rattle.steps.specs.Adjust.{moved, moved_blossom};
ghost use Rattle.steps.specs.Theorems.{AdjustKeeps, InnerOffersStay, OuterOffersMove};

use crate::label::Label;

// A function of its own, as `blossom_price` is: the theorems of the public ones are then cited once, and not in each arm.
// Prices are widened by casts, as in the theorems' own functions.
fn member_price(label: u8, price: u64) -> u64
    requires { price < 2 ^ 32 }
    ensures { result ≡ moved label price }
{
    match Label::try_from(label) {
        Ok(Label::Out) => price.saturating_sub(1),
        Ok(Label::In) => price + 1,
        Ok(Label::Still) | Err(_) => price,
    }
}

fn blossom_price(label: u8, price: u64) -> u64
    requires { price < 2 ^ 32 }
    ensures { result ≡ moved_blossom label price }
{
    match Label::try_from(label) {
        Ok(Label::Out) => price + 2,
        Ok(Label::In) => price.saturating_sub(2),
        Ok(Label::Still) | Err(_) => price,
    }
}

// A member's price after an adjust, by its label, a byte as a caller gives it: out loses a tick, in gains one. An accepted adjust keeps what every state keeps.
pub fn moved_price(label: u8, price: u32) -> u64
    ensures value { result ≡ moved label price }
    ensures keeps { AdjustKeeps }
{
    member_price(label, price as u64)
}

// A root blossom's price after an adjust, by its label, a byte as a caller gives it: out gains two ticks, in loses two. So an offer inside one root keeps its yz,
// and that of an offer between two roots moves with the prices of its two members alone.
pub fn moved_blossom(label: u8, price: u32) -> u64
    ensures value { result ≡ moved_blossom label price }
    ensures inner { InnerOffersStay }
    ensures outer { OuterOffersMove }
{
    blossom_price(label, price as u64)
}
