// The permitted error beside the mass for C and Rust: on numbers and slices, as in `exported_cars`.
#![tactic(auto)]

ghost use Rattle.car.specs.Car.{car_of, dipped};
ghost use Rattle.accuracy.specs.Permitted.{errors_of};
ghost use Rattle.reading.specs.Letter.{most_fields};
ghost use Rattle.marshalling.specs.Layout.{tables_lent, permitted_sized, PermittedHanded};

use marshalling::{BAD_LENGTH, errors_of, hand_over_limit, permitted_fits, tables_of};
use reading::MOST_FIELDS;

mod probed; // probed.rt: the permitted error of a probe's car

// The limit of the permitted error beside the six figures of a car alone.
#[tactic(auto, using(marshalling::proofs::Lengths::permitted_lengths))]
#[unsafe(no_mangle)]
pub extern "C" fn rack_permitted_error(
    count: u32,
    types: &[u32],
    rows: &[u32],
    levels: &[u32],
    capacities: &[u32],
    car: &[u32],
    errors: &[u32],
    figures: &mut [u32],
) -> u32
    ensures { PermittedHanded
        (permitted_sized most_fields types.now rows.now levels.now capacities.now car.now errors.now figures.old)
        (tables_lent count types.now rows.now levels.now capacities.now) (dipped (car_of car.now)) (errors_of errors.now)
        result figures.old figures.new }
{
    if !permitted_fits(
        MOST_FIELDS,
        types,
        rows,
        levels,
        capacities,
        car,
        errors,
        figures,
    ) {
        return BAD_LENGTH;
    }
    let given = errors_of(errors);
    let fields = working::car_of(car);
    let tables = tables_of(count, types, rows, levels, capacities);
    let answer = permitting::permitted_error(&tables, fields, given);
    hand_over_limit(answer, figures)
}
