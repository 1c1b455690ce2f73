// Capacity tables, V0, a car and the running train for C and Rust: on numbers and slices, as in `exported_parts`.
#![tactic(auto)]

mod cars; // cars.rt: a car alone, and the running train
mod tables; // tables.rt: capacity tables and V0
