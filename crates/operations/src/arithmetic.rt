// What instructions compute of numbers: nearest quotients, and addresses.
ghost use Rattle.std.specs.Prelude.{◌≡◌, ◌+◌, ◌*◌, ◌<◌, ◌≤◌};
ghost use Rattle.model.specs.Limits.{MAX};
ghost use Rattle.model.specs.Machine as Machine;

// The nearest whole quotient of values of registers: the one rounded down, and one more where at least half of the divisor is left.
pub fn nearest_quotient(x: u64, y: u64) -> u64
    requires { (x ≤ MAX) × (y ≤ MAX) × (0 < y) }
    ensures { result ≡ Machine.nearest_quotient x y }
{
    let whole = x / y;
    let rest = x % y;
    if y - rest <= rest { whole + 1 } else { whole }
}

// The nearest whole quotient of two registers, which a register holds.
pub fn nearest_quotient_u32(x: u32, y: u32) -> u32
    requires { 0 < y }
    ensures { result ≡ Machine.nearest_quotient x y }
{
    nearest_quotient(u64::from(x), u64::from(y)) as u32
}

// The address of an access, a whole number that is never reduced.
pub fn address(a: usize, x: u32, k: usize) -> usize
    requires { a * x + k < 18446744073709551616 }
    ensures { result ≡ Machine.address a x k }
{
    a * (x as usize) + k
}
