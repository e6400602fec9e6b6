//! The books of scripts and of lines over odd records.

pub mod checked;
pub mod choices;
pub mod entries;
pub mod lists;
pub mod odd;
pub mod refused;
pub mod rows;
pub mod shared;
pub mod spared;
