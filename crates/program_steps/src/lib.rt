// Steps on a chip by value, each with its line of a table: what was answered, and what the registers are after it.

#![tactic(auto)]

pub mod steps;
pub mod table;
