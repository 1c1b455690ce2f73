// The permitted error beside the mass of a probe's car.
ghost use Rattle.car.specs.Car.{probe_car_of, probed};
ghost use Rattle.accuracy.specs.Permitted.{errors_of};
ghost use Rattle.marshalling.specs.Layout.{
  tables_lent,
  set_of,
  probe_fields,
  permitted_sized,
  PermittedHanded,
};

use marshalling::{BAD_LENGTH, PROBE_FIELDS};
use probe_spec::ProbeSet;

// The limit of the permitted error beside the six figures of a probe's car alone.
#[tactic(auto, using(marshalling::proofs::Lengths::permitted_lengths))]
#[unsafe(no_mangle)]
pub extern "C" fn rack_permitted_error_probe(
    count: u32,
    types: &[u32],
    rows: &[u32],
    levels: &[u32],
    capacities: &[u32],
    car: &[u32],
    level: f32,
    temperature: f32,
    density: f32,
    errors: &[u32],
    figures: &mut [u32],
) -> u32
    ensures { PermittedHanded
        (permitted_sized probe_fields types.now rows.now levels.now capacities.now car.now errors.now figures.old)
        (tables_lent count types.now rows.now levels.now capacities.now) (probed (probe_car_of car.now (set_of level temperature density))) (errors_of errors.now)
        result figures.old figures.new }
{
    if !marshalling::permitted_fits(
        PROBE_FIELDS,
        types,
        rows,
        levels,
        capacities,
        car,
        errors,
        figures,
    ) {
        return BAD_LENGTH;
    }
    let given = marshalling::errors_of(errors);
    let set = ProbeSet {
        level,
        temperature,
        density,
    };
    let fields = marshalling::probe_car_of(car, set);
    let tables = marshalling::tables_of(count, types, rows, levels, capacities);
    let answer = permitting::permitted_error_probe(&tables, fields, given);
    marshalling::hand_over_limit(answer, figures)
}
