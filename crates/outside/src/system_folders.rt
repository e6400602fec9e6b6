//! `Folders` for `System`. As for its files, no contract says which calls were made: that has to be
//! checked by reading this file.

use crate::failure::Failure;
use crate::folders::Folders;
use crate::system::System;
use std::fs;
use std::io::{IsTerminal, Read, Write};
use std::rt::Files;

#[tactic(auto, unfolding(crate::specs::Events::noted))]
impl<R: Files + AllocGlobal, I: Read, W: Write, E: Write + IsTerminal> Folders
    for System<'_, R, I, W, E> {
    fn exists(&mut self, path: &str) -> Result<bool, Failure> {
        fs::exists(self.rt, path).map_err(|error| Failure::from(&error))
    }

    fn make_folder(&mut self, path: &str) -> Result<(), Failure> {
        fs::create_dir(self.rt, path).map_err(|error| Failure::from(&error))
    }

    fn remove_folder(&mut self, path: &str) {
        let _ = fs::remove_dir_all(self.rt, path);
    }
}
