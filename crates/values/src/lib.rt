// The kinds of value that a show keeps: what each kind has, and the 16 bytes of its values.

#![tactic(auto)]

pub mod kind;
pub mod level;
pub mod name;
pub mod packing;
pub mod timing;
