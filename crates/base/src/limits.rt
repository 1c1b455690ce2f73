// The limits that more than one rule names (specs/Limits.antt), each with its unit, and the unit of a mean level.

// The largest number of a field, and so of a car.
pub const LARGEST: u32 = 99_999_999;

// The most tables of a sheet, rows of a table, C lines and K lines of a sheet, and the most numbers that a train holds.
pub const MOST_TABLES: usize = 4;

pub const MOST_ROWS: usize = 400;

pub const MOST_CAR_LINES: usize = 120;

pub const MOST_STRIKES: usize = 60;

pub const MOST_CARS: usize = 60;

// How many grades there are, numbered from 1 on.
pub const GRADES: usize = 4;

// The highest level of a table, and of the tape, in mm.
pub const HIGHEST_LEVEL: u32 = 3_600;

// The greatest capacity of a table, in dm³.
pub const GREATEST_CAPACITY: u32 = 200_000;

// How many tenths make a millimetre: a mean level and a stick level are in tenths of a mm, in 64 bits where they stand by themselves.
pub const TENTHS: u64 = 10;
