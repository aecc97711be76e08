// A record of a list of offers: two members and what pairing them saves, in millimetres.
ghost use Rattle.std.specs.Prelude.{◌≡◌};

#[derive(Clone, Copy, Default, PartialEq, Eq, Debug)]
pub struct Offer {
    pub first: u32,
    pub second: u32,
    pub saving: u32,
}

impl Offer {
    pub fn new(first: u32, second: u32, saving: u32) -> Offer
        ensures { result ≡ record { first = first; second = second; saving = saving } }
    {
        Offer {
            first,
            second,
            saving,
        }
    }
}
