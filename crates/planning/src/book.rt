//! The book: its five calls, asking it, and issuing.
mod add;
mod ask;
mod distance;
mod drop;
mod fit;
mod grow;
mod issue;
mod judge;
mod open;
mod print;

// `settled` stands beside the layer and not in its place: a settled book reads its table as layer `t` too.
/// A book: how many facts and job numbers its task has, the layer of its table, whether that is
/// settled, and how many rounds its sheet has. It isn't copied, and comes only from opening, from an issuing
/// that is refused and from reopening.
#[derive(Drop)]
pub struct Book {
    n: u8,
    m: u8,
    t: u16,
    settled: bool,
    rounds: u16,
}
