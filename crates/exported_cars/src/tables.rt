// Capacity tables handed in: their number, types, rows, levels and capacities.
ghost use Rattle.std.specs.Prelude.{◌≡◌};
ghost use Rattle.gauging.specs.Capacity.{volume_answer};
ghost use Rattle.marshalling.specs.Handed.{number_handed, sized, figure_left, Handed};
ghost use Rattle.marshalling.specs.Layout.{tables_lent, tables_sized};
ghost use Rattle.exported_cars.specs.Lengths.{tables_answer};

use marshalling::BAD_LENGTH;

// 7 or 8, or 0 where neither applies.
#[tactic(auto, using(marshalling::proofs::Lengths::tables_right))]
#[unsafe(no_mangle)]
pub extern "C" fn rack_check_tables(
    count: u32,
    types: &[u32],
    rows: &[u32],
    levels: &[u32],
    capacities: &[u32],
) -> u32
    ensures { result ≡ number_handed (sized
        (tables_sized types.now rows.now levels.now capacities.now)
        (tables_answer (tables_lent count types.now rows.now levels.now capacities.now))) }
{
    if !marshalling::tables_fit(types, rows, levels, capacities) {
        return BAD_LENGTH;
    }
    let tables = marshalling::tables_of(count, types, rows, levels, capacities);
    match tabletests::check_tables(&tables) {
        Ok(()) => 0,
        Err(refusal) => refusal.number(),
    }
}

// V0, in 0.01 dm³, between a water level, in mm, and a mean level, in tenths of a mm, on the table of a type.
#[tactic(auto, using(marshalling::proofs::Lengths::tables_right, marshalling::proofs::Handed::figure_handed))]
#[unsafe(no_mangle)]
pub extern "C" fn rack_checked_volume(
    count: u32,
    types: &[u32],
    rows: &[u32],
    levels: &[u32],
    capacities: &[u32],
    kind: u32,
    mean: u64,
    water: u32,
    volume: &mut u32,
) -> u32
    ensures { Handed figure_left (sized
        (tables_sized types.now rows.now levels.now capacities.now)
        (volume_answer (tables_lent count types.now rows.now levels.now capacities.now) kind mean water))
        result volume.old volume.new }
{
    if !marshalling::tables_fit(types, rows, levels, capacities) {
        return BAD_LENGTH;
    }
    let tables = marshalling::tables_of(count, types, rows, levels, capacities);
    let answer = capacity::checked_volume(&tables, kind, mean, water);
    marshalling::hand_over_figure(answer, volume)
}
