// Shelves: lists of values of one kind whose length never changes, and what a shelf can be made of.

#![tactic(auto)]

pub mod numbered;
pub mod shelf;
pub mod table;
