// The car of a portable probe: by itself, and entered in the running train.
ghost use Rattle.std.specs.Prelude.{◌≡◌};
ghost use Rattle.table.specs.Layout.{tables_in};
ghost use Rattle.car.specs.Car.{probed_measured, probed, alone_answer, car_told};
ghost use Rattle.car.specs.ProbedCard.{ProbedRight};
ghost use Rattle.consist.specs.Train.{enter_answer, enter_train};
ghost use Rattle.consist.specs.Book.{car as carItem};
ghost use Rattle.consist.specs.Demand3.{Close, InOrder, Continues};
ghost use Rattle.consist.specs.ProbeExamples.{ProbesExample, ProbeOrder, ProbeBeside};
ghost use Rattle.train.specs.Told.{train_told};

use crate::{Step, Train};
use base::Refusal;
use car::{Figures, ProbeCar};
use table::Tables;

// A probe's car: 31 and 32 of its set, 7 and 8 of its tables, 10, then the first of 12, 13 and 16 to 21, or its figures.
#[tactic(auto, using(crate::proofs::ProbeSet::set_first, car::proofs::ProbedCard::probed_right, consist::proofs::AgainstProbes::probe_beside))]
pub fn work_out_probe(tables: &Tables<'_>, car: ProbeCar) -> Result<Figures, Refusal>
    ensures { (car_told result ≡ alone_answer (tables_in tables.now) (probed car))
        × Close (tables_in tables.now) (probed_measured car) (car_told result)
        × InOrder (tables_in tables.now) (probed_measured car) (car_told result)
        × ProbedRight × ProbeBeside }
{
    let t = probe::set_tenths(car.set)?;
    crate::alone::work_handed_in(tables, working::probed(car, t))
}

impl Train {
    // Enters a probe's car with its tables: its answer, and the train to hand in next, which 31 and 32 leave as it came.
    pub fn enter_probe(mut self, tables: &Tables<'_>, car: ProbeCar) -> Step
        ensures { (car_told result.answer ≡ enter_answer (tables_in tables.now) (train_told self) (probed car))
            × (train_told result.train ≡ enter_train (tables_in tables.now) (train_told self) (probed car))
            × Close (tables_in tables.now) (probed_measured car) (car_told result.answer)
            × InOrder (tables_in tables.now) (probed_measured car) (car_told result.answer)
            × Continues (train_told self) (carItem (tables_in tables.now) (probed car)) (car_told result.answer) (train_told result.train)
            × ProbeOrder × ProbesExample }
    {
        let answer = match probe::set_tenths(car.set) {
            Ok(t) => crate::running::enter_handed_in(&mut self, tables, working::probed(car, t)),
            Err(refusal) => Err(refusal),
        };
        Step {
            answer,
            train: self,
        }
    }
}
