//! How many rows the tables of a base have.

/// How many rows each table has under its header.
#[derive(Clone, Copy)]
pub struct TableSizes {
    pub patrons: usize,
    pub items: usize,
    pub loans: usize,
    pub fees: usize,
    pub closed: usize,
    pub holds: usize,
}
