// The words and numbers of a line, and the page that answers are written on.
#![tactic(auto)]

pub mod lines;
pub mod list;
pub mod number;
pub mod page;
pub mod word;
