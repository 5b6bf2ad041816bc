// The values of all variables in one array: sixteen registers, then the sizes of both tables.
ghost use Rattle.std.specs.Prelude.{◌≡◌, ◌<◌, take};
ghost use Rattle.model.specs.Limits as Limits;
ghost use Rattle.model.specs.Limits.{greatest_points};
ghost use Rattle.model.specs.Machine.{values_from, operand_at};
ghost use Rattle.model.specs.Limited.{OperandLimited};
ghost use Rattle.steps.specs.Stepped.{Written};

use model::limits::{REGISTERS, TABLES, VARIABLES};
use model::machine::Operand;

// The values of all variables, from the registers and the sizes of the tables.
pub fn values_of(registers: [u32; REGISTERS], sizes: [u32; TABLES]) -> [u32; VARIABLES]
    ensures { result ≡ values_from registers sizes }
{
    let mut values = [0; VARIABLES];
    values[..REGISTERS].copy_from_slice(&registers);
    values[REGISTERS..].copy_from_slice(&sizes);
    values
}

// The registers among the values of all variables.
pub fn registers_of(values: [u32; VARIABLES]) -> [u32; REGISTERS]
    ensures { result ≡ take Limits.registers values }
{
    let mut registers = [0; REGISTERS];
    registers.copy_from_slice(&values[..REGISTERS]);
    registers
}

// The value of an operand.
pub(crate) fn operand_value(values: &[u32; VARIABLES], o: Operand) -> u32
    requires { OperandLimited o }
    ensures { result ≡ operand_at values.now o }
{
    match o {
        Operand::Variable(v) => values[v],
        Operand::Number(n) => n,
    }
}

// A register written, and the next point.
pub(crate) fn put(values: &mut [u32; VARIABLES], d: usize, x: u32, point: usize) -> usize
    requires { (d < Limits.registers) × (point < greatest_points) }
    ensures { Written point d x values.old result values.new }
{
    values[d] = x;
    point + 1
}
