// Of the report of a run: whether the run was made, and which file a refusal is about.
ghost use Rattle.std.specs.Prelude.{◌≡◌};
ghost use Rattle.run_parts.specs.FileRun.{is_made, file_of};

use model::answers::Report;
use model::limits::GREATEST_SIZE;

// Whether a run was made, and has something to save.
pub fn is_made(report: Report) -> bool
    ensures { result ≡ is_made report }
{
    matches!(report, Report::Stopped | Report::Paused)
}

// The argument with the file that the refusal of this number is about, where the trays have so many bytes.
pub fn file_of(number: u64, trays: usize) -> usize
    ensures { result ≡ file_of number trays }
{
    match number {
        16 | 17 => 4,
        15 if GREATEST_SIZE < trays as u64 => 2,
        15 => 3,
        _ => 1,
    }
}
