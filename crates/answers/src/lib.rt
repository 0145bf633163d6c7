// What the console writes: answers in pieces, the panel and the undo groups drawn, the lists of commands and numbers, and what is wrong with a line.
#![tactic(auto)]

mod change;
pub mod draw;
pub mod files;
pub mod groups;
pub mod help;
pub mod out;
pub mod refusal;
pub mod spare;
