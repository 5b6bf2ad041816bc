// The line that the program prints for the bound of a listing: STEP with the bound in F6, or the checker's FAIL line.
ghost use Rattle.std.specs.Prelude.{◌≡◌};
ghost use Rattle.output.specs.BoundLine.{bound_line};

use crate::printed::{line_of, pass_fields, printed};
use model::answers::StepBound;

// The line of a bound, or of what turns the call back.
#[tactic(auto, unfolding(crate::specs::BoundLine::bound_line))]
pub fn bound_line(b: StepBound) -> [u8; 40]
    ensures { result ≡ bound_line b }
{
    match b {
        Ok(steps) => line_of(b"STEP", pass_fields(steps)),
        Err(r) => printed(Err(r)),
    }
}
