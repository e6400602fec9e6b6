//! A page and how it is written: markup that a program has as constants, and after each piece a
//! text of a table or a message, which can't leave its place whatever it holds.
#![tactic(auto)]

mod page;
mod piece;
mod text;

pub use page::Page;
