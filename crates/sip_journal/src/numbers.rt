//! Numbers of two and four bytes in captures.

/// Which byte of a number is written first.
#[derive(Clone, Copy)]
pub enum ByteOrder {
    LittleFirst,
    BigFirst,
}

impl ByteOrder {
    /// The number of two bytes at a place; 0 where there are fewer.
    pub fn short(self, bytes: &[u8], at: usize) -> u16 {
        let pair = match bytes.get(at..) {
            Some([one, two, ..]) => [*one, *two],
            _ => [0; 2],
        };
        match self {
            ByteOrder::LittleFirst => u16::from_le_bytes(pair),
            ByteOrder::BigFirst => u16::from_be_bytes(pair),
        }
    }

    /// The number of four bytes at a place; 0 where there are fewer.
    pub fn long(self, bytes: &[u8], at: usize) -> u32 {
        let four = match bytes.get(at..) {
            Some([one, two, three, four, ..]) => [*one, *two, *three, *four],
            _ => [0; 4],
        };
        match self {
            ByteOrder::LittleFirst => u32::from_le_bytes(four),
            ByteOrder::BigFirst => u32::from_be_bytes(four),
        }
    }
}
