// An offer as it is shown: two members, the shown saving, and the ground saving before any rounding. A read past the last offer
// gives the default one: no pair, and no saving.
#[derive(Clone, Copy, PartialEq, Eq, Debug, Default)]
pub struct Row {
    pub first: u32,
    pub second: u32,
    pub shown: u32,
    pub ground: u32,
}
