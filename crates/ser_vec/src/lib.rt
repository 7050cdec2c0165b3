// Vectors of any kind of element in the memory of a session.
#![tactic(auto)]

mod element;
mod fault;
mod header;
mod vector;

pub use fault::Fault;
pub use vector::SerVec;
