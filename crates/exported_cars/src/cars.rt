// A car worked out alone, and the running train.
ghost use Rattle.std.specs.Prelude.{◌≡◌};
ghost use Rattle.car.specs.Car.{car_of, dipped, alone_answer};
ghost use Rattle.consist.specs.Train.{empty_train, enter_answer, enter_train, strike_answer, strike_train};
ghost use Rattle.base.specs.Answer.{figures};
ghost use Rattle.marshalling.specs.Handed.{length_is, number_handed, sized, Handed, figures_left};
ghost use Rattle.marshalling.specs.Layout.{tables_lent, car_sized};
ghost use Rattle.trainslice.specs.Layout.{train_places, train_of, train_numbers, train_sized, TrainHanded};
ghost use Rattle.reading.specs.Letter.{most_fields};

use marshalling::BAD_LENGTH;
use reading::MOST_FIELDS;
use train::Train;
use trainslice::TRAIN_PLACES;

// A car worked out alone: its six figures.
#[tactic(auto, using(marshalling::proofs::Lengths::car_right))]
#[unsafe(no_mangle)]
pub extern "C" fn rack_work_out(
    count: u32,
    types: &[u32],
    rows: &[u32],
    levels: &[u32],
    capacities: &[u32],
    car: &[u32],
    figures: &mut [u32],
) -> u32
    ensures { Handed figures_left (sized
        (car_sized most_fields types.now rows.now levels.now capacities.now car.now figures.old)
        (alone_answer (tables_lent count types.now rows.now levels.now capacities.now) (dipped (car_of car.now))))
        result figures.old figures.new }
{
    if !marshalling::car_fits(MOST_FIELDS, types, rows, levels, capacities, car, figures) {
        return BAD_LENGTH;
    }
    let tables = marshalling::tables_of(count, types, rows, levels, capacities);
    let answer = train::work_out(&tables, working::car_of(car));
    marshalling::hand_over(answer, figures)
}

// The empty train.
#[unsafe(no_mangle)]
pub extern "C" fn rack_train_empty(train: &mut [u32]) -> u32
    ensures { Handed figures_left (sized (length_is train_places train.old) (figures (train_numbers empty_train))) result train.old train.new }
{
    if train.len() != TRAIN_PLACES {
        return BAD_LENGTH;
    }
    let empty = Train::empty();
    trainslice::write_train(empty.sums, &empty.cars, train);
    0
}

// A car entered in a train with its tables: its six figures, and the train to hand in with the next.
#[tactic(auto, using(marshalling::proofs::Lengths::car_right))]
#[unsafe(no_mangle)]
pub extern "C" fn rack_train_enter(
    train: &mut [u32],
    count: u32,
    types: &[u32],
    rows: &[u32],
    levels: &[u32],
    capacities: &[u32],
    car: &[u32],
    figures: &mut [u32],
) -> u32
    ensures { Handed figures_left (sized
        (train_sized most_fields train.old types.now rows.now levels.now capacities.now car.now figures.old)
        (enter_answer (tables_lent count types.now rows.now levels.now capacities.now) (train_of train.old) (dipped (car_of car.now))))
        result figures.old figures.new
        × TrainHanded
        (train_sized most_fields train.old types.now rows.now levels.now capacities.now car.now figures.old)
        (enter_train (tables_lent count types.now rows.now levels.now capacities.now) (train_of train.old) (dipped (car_of car.now)))
        train.old train.new }
{
    if train.len() != TRAIN_PLACES {
        return BAD_LENGTH;
    }
    if !marshalling::car_fits(MOST_FIELDS, types, rows, levels, capacities, car, figures) {
        return BAD_LENGTH;
    }
    let tables = marshalling::tables_of(count, types, rows, levels, capacities);
    let mut running = trainslice::train_of(train);
    let answer = train::enter_handed_in(
        &mut running,
        &tables,
        working::dipped(working::car_of(car)),
    );
    trainslice::write_train(running.sums, &running.cars, train);
    marshalling::hand_over(answer, figures)
}

// A number struck in a train: 0 where its car is taken out, and the train to hand in next.
#[unsafe(no_mangle)]
pub extern "C" fn rack_train_strike(train: &mut [u32], number: u32) -> u32
    ensures { (result ≡ number_handed (sized (length_is train_places train.old) (strike_answer (train_of train.old) number)))
        × TrainHanded (length_is train_places train.old) (strike_train (train_of train.old) number) train.old train.new }
{
    if train.len() != TRAIN_PLACES {
        return BAD_LENGTH;
    }
    let running = trainslice::train_of(train);
    let struck = running.strike(number);
    trainslice::write_train(struck.train.sums, &struck.train.cars, train);
    match struck.answer {
        Ok(_) => 0,
        Err(refusal) => refusal.number(),
    }
}
