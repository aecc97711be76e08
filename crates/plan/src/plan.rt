// The plan of a board: who is paired with whom, and the sums and bounds that it is told with.
ghost use Rattle.std.specs.Prelude.{◌≤◌};

#[derive(Clone, Copy)]
pub struct Plan {
    // Members are numbered from 0; partners past the last member say nothing. They stand in an array, so that no plan wants memory.
    pub members: usize,
    pub shown: u64,
    pub ground: u64,
    pub slack: u64,
    pub floor: u32,
    pub loose: usize,
    pub partners: [Option<u32>; 200],
    ghost few: { members ≤ 200 },
}
