// The line that the program prints for the checker's answer.
ghost use Rattle.std.specs.Prelude.{◌≡◌, replicate};
ghost use Rattle.model.specs.Limits.{line_bytes};
ghost use Rattle.model.specs.Text.{space};
ghost use Rattle.model.specs.Lines.{line_set};
ghost use Rattle.model.specs.Output;
ghost use Rattle.model.specs.Output.{place_field, pass_fields, fail_fields};

use answer_numbers::refusal::numbers;
use model::answers::{Refusal, Verdict};
use model::text::Field;
use written_line::set_line;

// A second place, blank where there is none.
fn place_field(n: u64) -> Field
    ensures { result ≡ place_field n }
{
    if n == 0 {
        Field::Blank
    } else {
        Field::Number(n)
    }
}

// The fields of a line with a number in F6 alone, as a PASS line.
pub(crate) fn pass_fields(points: u64) -> [Field; 6]
    ensures { result ≡ pass_fields points }
{
    let n = Field::Number(points);
    [
        Field::Blank,
        Field::Blank,
        Field::Blank,
        Field::Blank,
        Field::Blank,
        n,
    ]
}

// The fields of a FAIL line.
fn fail_fields(r: Refusal) -> [Field; 6]
    ensures { result ≡ fail_fields r }
{
    let x = numbers(r);
    let n = Field::Number(x.number);
    let second = place_field(x.second);
    let first = Field::Number(x.place);
    [n, Field::Blank, Field::Blank, Field::Blank, second, first]
}

// A line of a word and six fields.
pub(crate) fn line_of(word: &[u8; 4], fields: [Field; 6]) -> [u8; 40]
    ensures { result ≡ line_set (replicate line_bytes space) word.now fields }
{
    let mut line = [b' '; 40];
    set_line(&mut line, word, fields);
    line
}

// The printed line of an answer.
#[tactic(auto, unfolding(model::specs::Output::printed))]
pub fn printed(v: Verdict) -> [u8; 40]
    ensures { result ≡ Output.printed v }
{
    match v {
        Ok(points) => line_of(b"PASS", pass_fields(points as u64)),
        Err(r) => line_of(b"FAIL", fail_fields(r)),
    }
}
