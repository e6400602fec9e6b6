//! What is found in logs and captures.

use log_pairs::Direction;

/// What is found in a log or a capture.
#[derive(Drop)]
pub enum Finding {
    /// A message of a connection.
    Message {
        side: Direction,
        connection: Vec<u8>,
        message: Vec<u8>,
    },
    /// Nothing more comes of a connection.
    Over(Vec<u8>),
    /// What is to be reported, with its line end.
    Note(String),
}
