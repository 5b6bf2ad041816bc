// The judgement of six fields by what is asked of them.
ghost use Rattle.std.specs.Prelude.{◌≡◌};
ghost use Rattle.field_tests.specs.Asked.{row_judged};

use crate::asked::AskedRow;
use model::answers::{Judgement, Refusal};

// 4, 5 and 19 by what a row asks: every shape before any limit, and the registers that are written last.
pub fn judge_row(place: usize, shapes: u32, r: AskedRow) -> Judgement
    ensures { result ≡ row_judged place shapes r }
{
    if shapes != r.shapes {
        return Err(Refusal::FieldShape { line: place });
    }
    if !r.allowed {
        return Err(Refusal::NumberLimits { line: place });
    }
    if !r.differ {
        return Err(Refusal::SameRegister { line: place });
    }
    Ok(())
}
