// The portable probe for C and Rust: on floats, numbers and slices, as in `exported_cars`.
#![tactic(auto)]

mod cars; // cars.rt: a probe's car alone, and in the running train
mod tenths; // tenths.rt: readings and sets in tenths
