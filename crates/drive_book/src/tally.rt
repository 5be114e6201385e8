/// The number of acts that a queue has had, and of entries that were posted on it.
#[derive(Clone, Copy, Debug, PartialEq, Eq)]
pub struct Tally {
    pub acts: u64,
    pub entries: u64,
}
