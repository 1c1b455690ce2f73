// Slices that callers in C and Rust lend, taken for tables, a car, errors and numbers of this program, answers handed over, and the number
// handed back where a slice has a wrong length.
#![tactic(auto)]

mod cars; // cars.rt: a car and its answer
mod errors; // errors.rt: given errors and the permitted error
mod figure; // figure.rt: an answer of one figure
mod slices; // slices.rt: lent slices taken as arrays and copied
mod tables; // tables.rt: tables

pub use cars::{PROBE_FIELDS, car_fits, hand_over, probe_car_of};
pub use errors::{errors_of, hand_over_limit, permitted_fits};
pub use figure::hand_over_figure;
pub use slices::{BAD_LENGTH, array_of, copy_at};
pub use tables::{tables_fit, tables_of};
