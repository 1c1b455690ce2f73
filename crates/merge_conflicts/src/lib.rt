// What keeps two sheets from becoming one: refusals 33 and 34.
#![tactic(auto)]

mod held; // held.rt: the types and the numbers of the cars held
mod rows; // rows.rt: the rows of tables of the same type

pub use held::{held_on_both, type_elsewhere};
pub use rows::rows_differ;
