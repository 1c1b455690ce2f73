// The library: exactly the operations open to callers, and the types they take and answer. None of them asks anything of its caller.
#![tactic(auto)]

// Why something is turned away, by its number on the list; and at which line of a sheet.
pub use base::Refusal;
pub use holding::LineRefusal;

// Lines of a sheet.
pub use lettering::{read_line, write_line};
pub use reading::{Letter, Line};

// Mean level and tape allowance.
pub use level::mean_level;
pub use tape::tape_allowance;

// The stick compared with the tape; TAPE_READINGS places are handed in.
pub use comparing::stick_against_tape;
pub use comparison::{Comparison, Difference, TAPE_READINGS};

// Capacity tables and V0; PLACES rows have room in the arrays that are lent.
pub use capacity::checked_volume;
pub use table::{PLACES, Tables};
pub use tabletests::check_tables;

// Temperature corrections and limits of a car's fields.
pub use grades::{density_at_20_of_grade, oil_share, oil_share_any_grade};
pub use heating::{Density15, Density20};
pub use thermal::{density_at_20, expansion_of, factor_of};

// A laboratory's density brought to 15 °C.
pub use laboratory::Report;
pub use reducing::density_at_15;

// A car and the running train: `Train::empty`, `Train::enter`, `Train::strike`.
pub use car::{Car, Figures};
pub use consist::HeldCars;
pub use summing::{Sums, Totals};
pub use train::{Step, StrikeStep, Train, work_out};

// The permitted error beside the mass of a car.
pub use accuracy::{Errors, Permitted};
pub use permitting::permitted_error;

// A portable probe: a reading and a set in tenths, and its car, which `Train::enter_probe` enters in a train.
pub use car::ProbeCar;
pub use permitting::permitted_error_probe;
pub use probe::{reading_tenths, set_tenths};
pub use probe_spec::{ProbeReading, ProbeSet, SetTenths};
pub use train::work_out_probe;

// A sheet answered; LEAST_BUFFER bytes are the least answer buffer.
pub use answers::Reply;
pub use listing::{LEAST_BUFFER, answer_sheet};

// Two sheets merged into one; LEAST_MERGE_BUFFER bytes are the least buffer.
pub use merge::{LEAST_MERGE_BUFFER, merge_sheets};
