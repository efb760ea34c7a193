//! What the history of a table is made of.

/// A call that a seat made, and what it answered. Only proofs speak of entries.
pub struct Entry<C, R> {
    pub seat: u64,
    pub call: C,
    pub reply: R,
}
