//! Makes messages of captured packets: the segments of one side of a TCP connection come in as they were captured, late,
//! early or again, and leave as bytes in the order of their numbers; the bytes leave as pieces, each up to a carriage return or to a gap.
#![tactic(auto)]

mod cutter;
mod stream;

pub use cutter::{Cutter, StreamPiece};
pub use stream::{Segment, Stream, position_near};
