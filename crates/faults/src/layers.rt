// What each layer refuses. A case holds the value that its place is told from.

// Layer 1: the sheet's text, and the text of the answer.
#[derive(Clone, Copy, PartialEq, Eq, Debug)]
pub enum SheetFault {
    // The input is over 65,535 bytes.
    TooLong,
    // The line, from 1, is no form or out of order; past the last line, a form is missing.
    BadForm(usize),
    // The text, of this length, is longer than the buffer.
    ShortBuffer(usize),
}

// Layer 2: sources of offers.
#[derive(Clone, Copy, PartialEq, Eq, Debug)]
pub enum SourceFault {
    // So many members are too many.
    TooManyMembers(usize),
    // There are more offers than this, the most allowed.
    TooManyOffers(usize),
    // The offer names a member that is not there, or one member twice.
    BadMember(usize),
    // The offer's saving is over 100,000.
    HighSaving(usize),
    // The stock list is empty (0), too long (16), or bad at this index.
    BadStock(usize),
    // The member's length is 0 or over the largest stock length.
    BadLength(usize),
    // The saw cut is over 20.
    WideCut(u32),
    // The coarse layer's x is 0 or above N, or N is over 100,000.
    BadRatio,
}

// Layer 3: the board.
#[derive(Clone, Copy, PartialEq, Eq, Debug)]
pub enum BoardFault {
    NotBegun,
    AlreadyBegun,
    // k is not from 1 to 32.
    BadK(u32),
    // The source's top is over 1,000.
    HighTop(u32),
    // The node is no root; for dissolve, no root blossom.
    NotRoot(usize),
    // A list of so many offers is none that the step takes.
    WrongCount(usize),
    // The list of offers cannot be followed from this position on.
    BadOffer(usize),
    // The root has no loose member.
    NotLoose(usize),
    // Every blossom number is in use.
    NoNumber,
    // The number of labels, if it is not that of members; else the lowest member of a root labelled wrongly.
    BadLabels(usize),
    FloorZero,
    // The in root blossom has price 0.
    InAtZero(usize),
    // The offer would leave its bounds.
    OutOfBounds(usize),
    // The blossom's price is above 0.
    Priced(usize),
    // A question on a member that is not there.
    NoMember(usize),
}

// Layer 4: a stack.
#[derive(Clone, Copy, PartialEq, Eq, Debug)]
pub enum StackFault {
    // All of so many slots are in use.
    Full(usize),
}
