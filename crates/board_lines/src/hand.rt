/// The line that a worker has in hand, and the number of its attempt.
#[derive(Clone, Copy, PartialEq, Eq)]
pub struct Hand {
    pub line: u64,
    pub attempt: u32,
}
