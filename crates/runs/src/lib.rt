// Whole runs: any list of calls played on a new engine, with the law of runs on the contract.

#![tactic(auto)]

pub mod played;
pub mod playing;
