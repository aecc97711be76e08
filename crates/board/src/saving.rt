// Which of an offer's two savings is meant. An enum, since clauses name the two; a closure would say nothing there.
#[derive(Clone, Copy)]
pub enum Saving {
    Shown,
    Ground,
}
