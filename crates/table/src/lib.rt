// Capacity tables: up to four, each of up to 400 rows, and what 7 and 8 ask of them. It has definitions and proofs, and no code.
#![tactic(auto)]

// How many rows there is room for: as many for each table as one may have.
pub const PLACES: usize = base::MOST_TABLES * base::MOST_ROWS;

// Which tables there are: their number, their types and how many rows each has. Row i of table k stands at
// 400 k + i of the arrays of levels (mm) and capacities (dm³) that are lent beside the directory.
#[derive(Clone, Copy)]
pub struct Directory {
    pub types: [u32; base::MOST_TABLES],
    pub rows: [u32; base::MOST_TABLES],
    pub count: u32,
}

// Capacity tables: how many there are, their types, how many rows each has, and the levels (mm) and capacities (dm³) of the rows,
// which are lent: row i of table k is number 400 k + i.
#[derive(Clone, Copy)]
pub struct Tables<'a> {
    pub count: u32,
    pub types: [u32; base::MOST_TABLES],
    pub rows: [u32; base::MOST_TABLES],
    pub levels: &'a [u32; PLACES],
    pub capacities: &'a [u32; PLACES],
}
