//! The law of runs: what no run of the lock table can ever do, proved of its rules.
//!
//! This crate has no running code. `specs/Law.antt` states the law; the functions here name the theorems.

#![tactic(auto)]

ghost use Rattle.law.specs.Runs.{Lawful, AlwaysOrderly};
ghost use Rattle.law.specs.EmptyEngines.{EmptyEnginesRefused};

/// Every run of the rules is serial, ordered and live, for every kind of value `V` with changes `C`.
pub fn law_of_runs<V, C>()
    ensures { Lawful V C }
{}

/// Every table that calls reach from a new one is orderly: its holds and waits are of records of the show, and no station holds
/// a record twice.
pub fn tables_are_orderly<V, C>()
    ensures { AlwaysOrderly V C }
{}

/// The law refuses a give up that wounds nobody, a commit that writes nothing, a commit that always refuses, and a take that
/// always waits: each part of the law refuses at least one of them.
pub fn empty_engines_refused()
    ensures { EmptyEnginesRefused }
{}
