// A session carried: its calls as a packed list of bytes, and from there back to the state that they led to.
#![tactic(auto)]

pub mod call;
pub mod player;
pub mod reader;
pub mod writer;
