// A car worked out on capacity tables that are not refused: its refusals in the listed order, then its six figures.
#![tactic(auto)]

ghost use Rattle.std.specs.Prelude.{◌≡◌, false, ◌≤◌};
ghost use Rattle.base.specs.Answer.{accepts, first, answer};
ghost use Rattle.base.specs.Refusal.{verdict_told};
ghost use Rattle.base.specs.Limits.{highest_level, in_tenths};
ghost use Rattle.table.specs.Layout.{tables_in};
ghost use Rattle.table.specs.Inner.{GoodTables};
ghost use Rattle.thermal_stored.specs.Inner.{LookedUp};
ghost use Rattle.grading.specs.Grades.{grade_bad, oil_tests};
ghost use Rattle.kilograms.specs.Distance.{greatest_volume};
ghost use Rattle.car.specs.Measured.{early_tests, late_tests, figures_from, six_figures};
ghost use Rattle.car.specs.Car.{number_tests, measured, Intake, dipped, probed, own_answer, car_told};
ghost use Rattle.car.specs.Inner.{given_tests, Stands};
ghost use Rattle.probe_spec.specs.Inner.{SetShown};

use base::{LARGEST, Refusal};
use car::{Car, Figures, HandedIn, Measured, ProbeCar, Readings};
use heating::Oil;
use probe_spec::SetTenths;
use table::Tables;

mod fields; // fields.rt: a car by the numbers of its C line

pub use fields::car_of;

// 10.
pub fn check_number(number: u32) -> Result<(), Refusal>
    ensures { verdict_told result ≡ first (number_tests number) }
{
    if number < 1 || LARGEST < number {
        return Err(Refusal::CarNumber);
    }
    Ok(())
}

// What is measured of a car with readings whose mean level, in tenths of a mm, is known.
fn measured_at(car: Car, level: u64) -> Measured
    ensures { level ≡ (measured car).level → result ≡ measured car }
{
    Measured {
        kind: car.kind,
        grade: car.grade,
        stick: car.stick,
        level,
        water_level: car.water_level,
        temperature: car.temperature,
        density: car.density,
        water: car.water,
        impurities: car.impurities,
    }
}

// A dipped car, as its answers go by it.
pub fn dipped(car: Car) -> HandedIn
    ensures stands { Stands result (dipped car) }
    ensures own { result.measured.density ≡ car.density }
{
    let places = car.readings;
    HandedIn {
        number: car.number,
        readings: Some(Readings {
            count: car.count,
            places,
        }),
        measured: measured_at(car, level::mean_of(car.readings)),
    }
}

// A probe's car, as its answers go by it, where its set comes to these tenths.
pub fn probed(car: ProbeCar, t: SetTenths) -> HandedIn
    ensures { SetShown car.set t → Stands result (probed car) }
{
    HandedIn {
        number: car.number,
        readings: None,
        measured: Measured {
            kind: car.kind,
            grade: car.grade,
            stick: car.stick,
            level: u64::from(t.level),
            water_level: car.water_level,
            temperature: t.temperature,
            density: t.density,
            water: car.water,
            impurities: car.impurities,
        },
    }
}

// 12 or 13, on tables that are not refused.
fn check_early(tables: &Tables<'_>, m: Measured) -> Result<(), Refusal>
    requires { GoodTables tables.now }
    ensures { verdict_told result ≡ first (early_tests (tables_in tables.now) m) }
{
    if tabletests::knows_type(tables, m.kind) {
        return grades::check_code(m.grade, m.stick);
    }
    Err(Refusal::UnknownType)
}

// 14, 15 and 23, where there are readings.
fn check_given(readings: Option<Readings>) -> Result<(), Refusal>
    ensures { verdict_told result ≡ first (given_tests readings) }
{
    match readings {
        Some(r) => level::check_readings(r.count, r.places),
        None => Ok(()),
    }
}

// The six figures of what is measured, from V0 (0.01 dm³) on, or the first of 18 to 21, for a grade that there is; B is handed on.
fn from_volume(number: u32, m: Measured, expansion: u32, v0: u32) -> Result<Figures, Refusal>
    requires { (m.level ≤ in_tenths highest_level) × (v0 ≤ greatest_volume) × (grade_bad m.grade ≡ false) × LookedUp m.density.0 expansion }
    ensures { car_told result ≡ answer (first (oil_tests m.grade m.temperature m.density.0 m.water m.impurities)) (figures_from number m v0) }
{
    grades::check_range(m.grade, m.temperature, m.density, m.water, m.impurities)?;
    let oil = Oil {
        density: m.density,
        expansion,
    };
    grades::check_density_20(m.grade, oil)?;
    let w = mass::masses_of(v0, m.stick, m.temperature, oil, m.water, m.impurities);
    Ok(Figures {
        number,
        level: m.level as u32,
        v0,
        v15: w.v15,
        gross: w.gross,
        net: w.net,
    })
}

// The six figures of what is measured, or the first of 16 to 21; neither 12 nor 13 applies.
fn work_measured(
    tables: &Tables<'_>,
    number: u32,
    m: Measured,
    expansion: u32,
) -> Result<Figures, Refusal>
    requires { GoodTables tables.now × (first (early_tests (tables_in tables.now) m) ≡ accepts) × LookedUp m.density.0 expansion }
    ensures { car_told result ≡ answer (first (late_tests (tables_in tables.now) m)) (six_figures (tables_in tables.now) number m) }
{
    let v0 = capacity::volume_on(tables, m.kind, m.level, m.water_level)?;
    from_volume(number, m, expansion, v0)
}

// The car's answer on tables that are not refused, with the B of its density: the first of 12 to 21, or its figures.
pub fn work_on(tables: &Tables<'_>, car: HandedIn, expansion: u32) -> Result<Figures, Refusal>
    requires { GoodTables tables.now × LookedUp car.measured.density.0 expansion }
    ensures { (h : Intake) → Stands car h → car_told result ≡ own_answer (tables_in tables.now) h }
{
    check_early(tables, car.measured)?;
    check_given(car.readings)?;
    work_measured(tables, car.number, car.measured, expansion)
}
