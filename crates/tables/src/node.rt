// A node by its number: below 200 it is a member alone, and 200 + i is the blossom at place i.
ghost use Rattle.std.specs.Prelude.{◌≡◌};
ghost use Rattle.tables.specs.Nodes.{node_of};

#[derive(Clone, Copy, PartialEq, Eq, Debug)]
pub enum Node {
    Member(usize),
    // By its place, where there may be none.
    Blossom(usize),
}

impl From<usize> for Node {
    ghost from_gives = { λ n r. r ≡ node_of n };

    fn from(number: usize) -> Node {
        match number.checked_sub(200) {
            Some(place) => Node::Blossom(place),
            None => Node::Member(number),
        }
    }
}
