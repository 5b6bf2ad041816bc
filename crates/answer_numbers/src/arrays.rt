// The answers as arrays of numbers, for C and Rust.
ghost use Rattle.std.specs.Prelude.{◌≡◌};
ghost use Rattle.answer_numbers.specs.Arrays.{answer_of, judged_answer, judged_part_answer, part_answer, run_answer};

use crate::refusal::numbers;
use model::answers::{ClaimPart, Judgement, Refusal, Report};

// The points or the bound of a listing, as four numbers.
pub fn answer_numbers(answer: Result<u64, Refusal>) -> [u64; 4]
    ensures { result ≡ answer_of answer }
{
    match answer {
        Ok(n) => [0, 0, 0, n],
        Err(r) => {
            let x = numbers(r);
            [x.number, x.place, x.second, 0]
        }
    }
}

// Whether a call is turned back, as two numbers.
pub fn judgement_numbers(j: Judgement) -> [u64; 2]
    ensures { result ≡ judged_answer j }
{
    match j {
        Ok(()) => [0, 0],
        Err(r) => {
            let x = numbers(r);
            [x.number, x.place]
        }
    }
}

// Whether a call is turned back, and a part of a listing, as four numbers.
pub fn judged_part_numbers(j: Judgement, offset: usize, length: usize) -> [u64; 4]
    ensures { result ≡ judged_part_answer j offset length }
{
    let x = judgement_numbers(j);
    [x[0], x[1], offset as u64, length as u64]
}

// Where claim lines stand, as four numbers.
pub fn part_numbers(part: Result<ClaimPart, Refusal>) -> [u64; 4]
    ensures { result ≡ part_answer part }
{
    match part {
        Ok(c) => judged_part_numbers(Ok(()), c.offset, c.length),
        Err(r) => judged_part_numbers(Err(r), 0, 0),
    }
}

// How a run ended, as six numbers.
pub fn run_numbers(report: Report, steps: u32, point: usize) -> [u64; 6]
    ensures { result ≡ run_answer report steps point }
{
    let n = u64::from(steps);
    let p = point as u64;
    match report {
        Report::Stopped => [0, 0, 0, 0, n, p],
        Report::Paused => [1, 0, 0, 0, n, p],
        Report::Refused(r) => {
            let x = numbers(r);
            [2, x.number, x.place, x.second, n, p]
        }
    }
}
