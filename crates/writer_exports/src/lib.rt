// The setting of a line for C and Rust. It is a library of its own, so that the reader's code in the other one is made for the reader alone.
#![tactic(auto)]

ghost use Rattle.std.specs.Prelude.{◌≡◌};
ghost use Rattle.model.specs.Writing.{line_judged, listing_set};
ghost use Rattle.answer_numbers.specs.Arrays.{judged_answer};
ghost use Rattle.writer.specs.Kinds.{fields_of_kinds};

use answer_numbers::arrays::judgement_numbers;
use writer::kinds::fields_of_kinds;

// Sets a line of the listing, counted from 1, from a word and six fields: number and place of the refusal, or 0.
#[unsafe(no_mangle)]
pub extern "C" fn rithwellu_set_line(
    word: &[u8],
    kinds: &[u8; 6],
    numbers: &[u64; 6],
    line: usize,
    listing: &mut [u8],
    answer: &mut [u64; 2],
)
    ensures answer_after { answer.new ≡ judged_answer (line_judged word.now (fields_of_kinds kinds.now numbers.now) line listing.old) }
    ensures listing_after { listing.new ≡ listing_set word.now (fields_of_kinds kinds.now numbers.now) line listing.old }
{
    let fields = fields_of_kinds(kinds, numbers);
    let judgement = writer::set_line(word, fields, line, listing);
    *answer = judgement_numbers(judgement);
}
