// The nodes section of a bundle: its records, finding one by its hash, and what is refused of them (15 to 19).
#![tactic(auto)]

pub mod faults;
pub mod find;
pub mod links;
pub mod records;
pub mod starts;
