// 15 to 17: what is tested of the tables and the state that a run is handed.
#![tactic(auto)]

mod meets;

ghost use Rattle.std.specs.Prelude.{◌≡◌, true};
ghost use Rattle.std.specs.List.{list_all};
ghost use Rattle.model.specs.Lists.{every};
ghost use Rattle.model.specs.Facts as Facts;
ghost use Rattle.model.specs.Facts.{facts_of};
ghost use Rattle.model.specs.Run as Run;
ghost use Rattle.model.specs.Run.{size_fits};
ghost use Rattle.rows_and_places.specs.Points.{Placed, Holds, point_in, points_in};
ghost use Rattle.state_tests.specs.States.{state};

use crate::meets::meets;
use facts::point::PointFacts;
use line_rows::rows::Row;
use model::answers::{Judgement, Refusal};
use model::limits::{GREATEST_SIZE, REGISTERS, TABLES, VARIABLES};
use reader::point_facts::facts_at;
use rows_and_places::places::Places;
use steps::values::values_of;

// Whether the values meet the claims of point p.
fn claims_met(rows: &[Row], at: &Places, p: usize, values: &[u32; VARIABLES]) -> bool
    requires { Placed rows.now at.now p }
    ensures { result ≡ Facts.meets values.now (facts_of (point_in rows.now at.now p).claims) }
{
    let mut facts = PointFacts::new();
    facts_at(rows, at, p, &mut facts);
    meets(values, &facts)
}

// Whether no table is too long.
fn all_fit(sizes: [usize; TABLES]) -> bool
    ensures { result ≡ list_all size_fits sizes }
{
    sizes.iter().all(|n| *n <= GREATEST_SIZE as usize)
}

// 15 to 17 for a listing of so many points, the parts of a state, and tables of these sizes.
pub fn state_judged(
    rows: &[Row],
    at: &Places,
    count: usize,
    point: usize,
    registers: [u32; REGISTERS],
    sizes: [usize; TABLES],
) -> Judgement
    requires { Holds rows.now at.now count }
    ensures { result ≡ Run.state_judged (points_in rows.now at.now count) (state point registers) sizes }
{
    if !all_fit(sizes) {
        return Err(Refusal::TableLength);
    }
    if count <= point {
        return Err(Refusal::NoSuchPoint);
    }
    let values = values_of(registers, words(sizes));
    if claims_met(rows, at, point, &values) {
        return Ok(());
    }
    Err(Refusal::ClaimsNotMet)
}

// The sizes of tables that are not too long, as values of variables.
pub fn words(sizes: [usize; TABLES]) -> [u32; TABLES]
    requires { every size_fits sizes ≡ true }
    ensures { result ≡ sizes }
{
    [sizes[0] as u32, sizes[1] as u32]
}
