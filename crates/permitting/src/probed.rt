// The permitted error beside the mass of a probe's car by itself.
ghost use Rattle.table.specs.Layout.{tables_in};
ghost use Rattle.car.specs.Car.{probed_measured, probed};
ghost use Rattle.consist.specs.Demand3.{Close, InOrder};
ghost use Rattle.accuracy.specs.Permitted.{OnlyAnswer, permitted_told};
ghost use Rattle.accuracy.specs.Shown.{ShownRight};
ghost use Rattle.accuracy.specs.ProbedCard.{ProbedPermittedRight};

use accuracy::{Errors, Permitted};
use base::Refusal;
use car::ProbeCar;
use table::Tables;

// 31 and 32 of its set, the refusals of the car alone, 24 and 25; or what `permitted_error` gives of a dipped car.
#[tactic(auto, using(crate::proofs::Answered::car_first, train::proofs::ProbeSet::set_first, probe_spec::proofs::Answers::set_verdict, accuracy::proofs::AgainstProbedCard::probed_permitted_right))]
pub fn permitted_error_probe(
    tables: &Tables<'_>,
    car: ProbeCar,
    errors: Errors,
) -> Result<Permitted, Refusal>
    ensures { OnlyAnswer (tables_in tables.now) (probed car) errors (permitted_told result)
        × ShownRight (tables_in tables.now) (probed car) errors (permitted_told result)
        × Close (tables_in tables.now) (probed_measured car) (permitted_told result)
        × InOrder (tables_in tables.now) (probed_measured car) (permitted_told result)
        × ProbedPermittedRight }
{
    let t = probe::set_tenths(car.set)?;
    let car = working::probed(car, t);
    let expansion = thermal_stored::expansion(car.measured.density);
    let six = train::work_alone(tables, car, expansion)?;
    crate::limit_beside(tables, car.measured, expansion, six, errors)
}
