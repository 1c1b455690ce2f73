// The tables and cars of a sheet made of two, written into a lent buffer in the order of their entries.
#![tactic(auto)]

mod cars; // cars.rt: a C line for each car
mod tables; // tables.rt: a T line and R lines for each table

pub use cars::write_cars;
pub use tables::write_tables;
