// The show image: its blocks, the shelf over them, the check of a whole image, and new images.

#![tactic(auto)]

mod block;
pub mod check;
pub mod fault;
pub mod fresh;
mod open_block;
mod rows;
pub mod shelf;
