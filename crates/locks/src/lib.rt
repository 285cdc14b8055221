// The lock table of the engine: sixteen stations, what each does and holds, and the questions and changes of the rules.

#![tactic(auto)]

mod admission;
mod asking;
mod changes;
mod changing;
mod granting;
pub mod hand;
mod questions;
pub mod set;
pub mod station;
pub mod table;
pub mod wounding;
