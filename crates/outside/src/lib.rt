//! Input and output of a program: files, folders and the standard streams, by calls of the traits
//! `Outside` and `Folders`, so that a contract can say which calls were made, in which order, and
//! what they returned. `System` implements both by calls to the operating system.
//!
//! A file is written under a temporary path, and renamed when it is complete.
#![tactic(auto)]

mod failure;
mod file_id;
mod folders;
mod outside;
mod reading;
mod system;
mod system_folders;
mod writing;

pub use failure::Failure;
pub use file_id::FileId;
pub use folders::Folders;
pub use outside::Outside;
pub use reading::{FileStop, IfMissing, read_file, read_in};
pub use system::System;
pub use writing::{Unplaced, Unwritten, file_in_folder, write_files};
