// The line that the program prints for a run: STOP or PAUS with the point in F1 and the steps in F6, or the checker's FAIL line.
ghost use Rattle.std.specs.Prelude.{◌≡◌};
ghost use Rattle.output.specs.RunLine.{run_fields, answer_line};

use crate::printed::{line_of, printed};
use lines::words::text;
use model::answers::Report;
use model::text::{Field, Word};

// The fields of a run that was made.
fn run_fields(point: usize, steps: u32) -> [Field; 6]
    ensures { result ≡ run_fields point steps }
{
    let p = Field::Number(point as u64);
    let n = Field::Number(u64::from(steps));
    [p, Field::Blank, Field::Blank, Field::Blank, Field::Blank, n]
}

// The line of a run's outcome.
#[tactic(auto, unfolding(crate::specs::RunLine::answer_line, crate::specs::RunLine::run_line))]
pub fn answer_line(report: Report, point: usize, steps: u32) -> [u8; 40]
    ensures { result ≡ answer_line report point steps }
{
    match report {
        Report::Stopped => line_of(&text(Word::Stop), run_fields(point, steps)),
        Report::Paused => line_of(b"PAUS", run_fields(point, steps)),
        Report::Refused(r) => printed(Err(r)),
    }
}
