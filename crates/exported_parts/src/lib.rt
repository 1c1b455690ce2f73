// The operations on lines and single figures for C and Rust: on numbers and slices. Each hands back 0, a refusal of document 01,
// or a number past its list where what is lent cannot be asked about; it writes its figures only beside 0. `exported_cars` has the
// operations on tables, cars and the train.
#![tactic(auto)]

mod figures; // figures.rt: operations that answer one figure from numbers
mod lines; // lines.rt: one line read or written
