// A probe's car, its set by three floats: alone, and entered in the running train.
ghost use Rattle.std.specs.Prelude.{◌≡◌, length};
ghost use Rattle.car.specs.Car.{probe_car_of, probed, alone_answer};
ghost use Rattle.consist.specs.Train.{enter_answer, enter_train};
ghost use Rattle.marshalling.specs.Handed.{sized, Handed, figures_left};
ghost use Rattle.marshalling.specs.Layout.{tables_lent, set_of, probe_fields, car_sized};
ghost use Rattle.export_probe.specs.Prepared.{PreparedAs};
ghost use Rattle.trainslice.specs.Layout.{train_of, train_sized, TrainHanded};

use base::Refusal;
use car::HandedIn;
use marshalling::{BAD_LENGTH, PROBE_FIELDS};
use probe_spec::ProbeSet;
use trainslice::TRAIN_PLACES;

// A probe's car by its seven numbers and its set, which comes to tenths; or the refusal of its set.
fn prepare(car: &[u32], level: f32, temperature: f32, density: f32) -> Result<HandedIn, Refusal>
    requires { length car.now ≡ probe_fields }
    ensures { PreparedAs result (probe_car_of car.now (set_of level temperature density)) }
{
    let set = ProbeSet {
        level,
        temperature,
        density,
    };
    let t = probe::set_tenths(set)?;
    let fields = marshalling::probe_car_of(car, set);
    Ok(working::probed(fields, t))
}

// A probe's car worked out alone: its six figures.
#[tactic(auto, using(marshalling::proofs::Lengths::car_right))]
#[unsafe(no_mangle)]
pub extern "C" fn rack_work_out_probe(
    count: u32,
    types: &[u32],
    rows: &[u32],
    levels: &[u32],
    capacities: &[u32],
    car: &[u32],
    level: f32,
    temperature: f32,
    density: f32,
    figures: &mut [u32],
) -> u32
    ensures { Handed figures_left (sized
        (car_sized probe_fields types.now rows.now levels.now capacities.now car.now figures.old)
        (alone_answer (tables_lent count types.now rows.now levels.now capacities.now) (probed (probe_car_of car.now (set_of level temperature density)))))
        result figures.old figures.new }
{
    if !marshalling::car_fits(PROBE_FIELDS, types, rows, levels, capacities, car, figures) {
        return BAD_LENGTH;
    }
    match prepare(car, level, temperature, density) {
        Ok(p) => {
            let tables = marshalling::tables_of(count, types, rows, levels, capacities);
            let answer = train::work_handed_in(&tables, p);
            marshalling::hand_over(answer, figures)
        }
        Err(refusal) => refusal.number(),
    }
}

// A probe's car entered in a train with its tables: its six figures, and the train to hand in next.
#[tactic(auto, using(marshalling::proofs::Lengths::car_right))]
#[unsafe(no_mangle)]
pub extern "C" fn rack_train_enter_probe(
    train: &mut [u32],
    count: u32,
    types: &[u32],
    rows: &[u32],
    levels: &[u32],
    capacities: &[u32],
    car: &[u32],
    level: f32,
    temperature: f32,
    density: f32,
    figures: &mut [u32],
) -> u32
    ensures { Handed figures_left (sized
        (train_sized probe_fields train.old types.now rows.now levels.now capacities.now car.now figures.old)
        (enter_answer (tables_lent count types.now rows.now levels.now capacities.now) (train_of train.old) (probed (probe_car_of car.now (set_of level temperature density)))))
        result figures.old figures.new
        × TrainHanded
        (train_sized probe_fields train.old types.now rows.now levels.now capacities.now car.now figures.old)
        (enter_train (tables_lent count types.now rows.now levels.now capacities.now) (train_of train.old) (probed (probe_car_of car.now (set_of level temperature density))))
        train.old train.new }
{
    if train.len() != TRAIN_PLACES {
        return BAD_LENGTH;
    }
    if !marshalling::car_fits(PROBE_FIELDS, types, rows, levels, capacities, car, figures) {
        return BAD_LENGTH;
    }
    let p = match prepare(car, level, temperature, density) {
        Ok(p) => p,
        Err(refusal) => return refusal.number(),
    };
    let tables = marshalling::tables_of(count, types, rows, levels, capacities);
    let mut running = trainslice::train_of(train);
    let answer = train::enter_handed_in(&mut running, &tables, p);
    trainslice::write_train(running.sums, &running.cars, train);
    marshalling::hand_over(answer, figures)
}
