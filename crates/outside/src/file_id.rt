//! Which file a path leads to.

/// A file by its device and inode number: paths with the same `FileId` lead to one file.
#[derive(Clone, Copy)]
pub struct FileId {
    pub device: u64,
    pub number: u64,
}
