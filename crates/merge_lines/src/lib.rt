// What a merged sheet is written of: sheets that were read, C and E lines made of their numbers, and bytes of a sheet copied.
#![tactic(auto)]

mod copy; // copy.rt: bytes of a sheet copied
mod lines; // lines.rt: C and E lines
mod read; // read.rt: a sheet that was read whole

pub use copy::copy_bytes;
pub use lines::{car_line, end_line};
pub use read::ReadSheet;
