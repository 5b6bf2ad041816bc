// One step of the machine, in place. No address and no divisor is tested: a passed listing makes no step that is an error.
ghost use Rattle.std.specs.Prelude.{◌≡◌, ℕ, ◌+◌, ◌<◌, ◌≤◌, Bool, length, if◌then◌else◌};
ghost use Rattle.model.specs.Limits.{greatest_points, registers, variables};
ghost use Rattle.model.specs.Facts.{value_at};
ghost use Rattle.model.specs.Machine as Machine;
ghost use Rattle.model.specs.Machine.{lent, table_of, operand_at, bytes_of, read_bytes, write_bytes, sum};
ghost use Rattle.model.specs.Limited.{OperandLimited};
ghost use Rattle.steps.specs.Stepped.{Written, WrittenBoth, Steppable, Stepped};

use crate::values::{operand_value, put};
use model::limits::VARIABLES;
use model::machine::{Access, Instruction, Operand, Table};
use operations::arithmetic::{address, nearest_quotient_u32};
use operations::bytes::{load, store};

// COPY: the value of a variable, written.
fn copy(values: &mut [u32; VARIABLES], point: usize, d: usize, i: usize) -> usize
    requires { (point < greatest_points) × (d < registers) × (i < variables) }
    ensures { Written point d (value_at values.old i) values.old result values.new }
{
    let x = values[i];
    put(values, d, x, point)
}

// ADDW, SUBW, MULW and DIVF: what an operation makes of a variable and an operand, written.
fn compute<F: FnOnce(u32, u32) -> u32>(
    values: &mut [u32; VARIABLES],
    point: usize,
    d: usize,
    i: usize,
    o: Operand,
    operation: F,
) -> usize
    requires limited { (point < greatest_points) × (d < registers) × (i < variables) × OperandLimited o }
    requires callable { F.pre operation (value_at values.old i) (operand_at values.old o) }
    ensures { (z : ℕ) × F.post operation (value_at values.old i) (operand_at values.old o) z × Written point d z values.old result values.new }
{
    let x = values[i];
    let y = operand_value(values, o);
    let z = operation(x, y);
    put(values, d, z, point)
}

// DIVM: the quotient rounded down and the remainder. Both are computed before either is written, since they may overwrite what is
// divided and the divisor, which is above 0.
fn divide_whole(
    values: &mut [u32; VARIABLES],
    point: usize,
    q: usize,
    i: usize,
    r: usize,
    o: Operand,
) -> usize
    requires { (point < greatest_points) × (q < registers) × (i < variables) × (r < registers) × OperandLimited o × (0 < operand_at values.old o) }
    ensures { WrittenBoth point q (Machine.quotient (value_at values.old i) (operand_at values.old o)) r (Machine.remainder (value_at values.old i) (operand_at values.old o)) values.old result values.new }
{
    let x = values[i];
    let y = operand_value(values, o);
    let whole = x / y;
    let rest = x % y;
    values[q] = whole;
    put(values, r, rest, point)
}

// The number that an access to a table finds.
fn load_from(trays: &[u8], results: &[u8], at: usize, access: Access) -> u32
    requires { at + bytes_of access.w ≤ length (table_of access.table (lent trays.now results.now)) }
    ensures { result ≡ read_bytes (bytes_of access.w) (table_of access.table (lent trays.now results.now)) at }
{
    let Access { table, w, .. } = access;
    match table {
        Table::Trays => load(trays, at, w),
        Table::Results => load(results, at, w),
    }
}

// LOAD: the number found in a table, written. The access lies inside the table.
fn load_to(
    values: &mut [u32; VARIABLES],
    point: usize,
    trays: &[u8],
    results: &[u8],
    d: usize,
    access: Access,
) -> usize
    requires { (point < greatest_points) × (d < registers) × (access.i < variables) × (Machine.address access.a (value_at values.old access.i) access.k + bytes_of access.w ≤ length (table_of access.table (lent trays.now results.now))) }
    ensures { Written point d (read_bytes (bytes_of access.w) (table_of access.table (lent trays.now results.now)) (Machine.address access.a (value_at values.old access.i) access.k)) values.old result values.new }
{
    let i = access.i;
    let x = values[i];
    let at = address(access.a, x, access.k);
    let z = load_from(trays, results, at, access);
    put(values, d, z, point)
}

// STOR: the low bytes of a variable, stored in the results. The access lies inside them.
fn store_from(
    values: &[u32; VARIABLES],
    point: usize,
    results: &mut [u8],
    v: usize,
    access: Access,
) -> usize
    requires { (point < greatest_points) × (v < variables) × (access.i < variables) × (Machine.address access.a (value_at values.now access.i) access.k + bytes_of access.w ≤ length results.old) }
    ensures { (result ≡ point + 1) × (results.new ≡ write_bytes (bytes_of access.w) results.old (Machine.address access.a (value_at values.now access.i) access.k) (value_at values.now v)) }
{
    let x = values[access.i];
    let at = address(access.a, x, access.k);
    store(results, at, access.w, values[v]);
    point + 1
}

// BLTU and BEQU: the target where a variable and an operand pass the test, else the next point.
fn branch<F: FnOnce(u32, u32) -> bool>(
    values: &[u32; VARIABLES],
    point: usize,
    i: usize,
    t: usize,
    o: Operand,
    test: F,
) -> usize
    requires limited { (point < greatest_points) × (i < variables) × OperandLimited o }
    requires callable { F.pre test (value_at values.now i) (operand_at values.now o) }
    ensures { (b : Bool) × F.post test (value_at values.now i) (operand_at values.now o) b × (result ≡ (if b then t else point + 1)) }
{
    let x = values[i];
    let y = operand_value(values, o);
    if test(x, y) { t } else { point + 1 }
}

// One step: the point that it leads to. The values and the results are changed in place.
pub fn step(
    instruction: &Instruction,
    point: usize,
    values: &mut [u32; VARIABLES],
    trays: &[u8],
    results: &mut [u8],
) -> usize
    requires { Steppable instruction.now point values.old (lent trays.now results.old) }
    ensures { Stepped instruction.now point values.old (lent trays.now results.old) result values.new (lent trays.now results.new) }
{
    match *instruction {
        Instruction::Stop => point,
        Instruction::Setc { d, c } => put(values, d, c, point),
        Instruction::Copy { d, i } => copy(values, point, d, i),
        Instruction::Addw { d, i, o } => compute(values, point, d, i, o, |x, y| x.wrapping_add(y)),
        Instruction::Subw { d, i, o } => compute(values, point, d, i, o, |x, y| x.wrapping_sub(y)),
        Instruction::Mulw { d, i, o } => compute(values, point, d, i, o, |x, y| x.wrapping_mul(y)),
        Instruction::Divf { d, i, o } => compute(values, point, d, i, o, nearest_quotient_u32),
        Instruction::Load {
            d,
            w,
            table,
            a,
            i,
            k,
        } => load_to(
            values,
            point,
            trays,
            results,
            d,
            Access { table, w, a, i, k },
        ),
        Instruction::Stor { v, w, a, i, k } => store_from(
            values,
            point,
            results,
            v,
            Access {
                table: Table::Results,
                w,
                a,
                i,
                k,
            },
        ),
        Instruction::Jump { t } => t,
        Instruction::Bltu { i, t, o } => branch(values, point, i, t, o, |x, y| x < y),
        Instruction::Bequ { i, t, o } => branch(values, point, i, t, o, |x, y| x == y),
        Instruction::Divm { q, i, r, o } => divide_whole(values, point, q, i, r, o),
    }
}
