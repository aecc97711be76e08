// What is asked of a source, and a refusal as numbers.
use faults::code::Code;
use faults::layers::SourceFault;
use sources::source::Source;

pub(crate) fn refusal(number: u32, place: usize) -> Option<Code> {
    Some(Code {
        layer: 2,
        number,
        place,
    })
}

pub(crate) fn told(judged: Result<(), SourceFault>) -> Option<Code> {
    judged.err().map(Code::from)
}

// Members, offers, top.
pub(crate) fn sizes<S: Source>(s: &S) -> (usize, usize, u32) {
    (s.members(), s.offers(), s.top())
}

// First member, second member, shown and ground of an offer.
pub(crate) fn row<S: Source>(s: &S, e: usize) -> (u32, u32, u32, u32) {
    let (first, second) = s.ends(e);
    (first, second, s.shown(e), s.ground(e))
}
