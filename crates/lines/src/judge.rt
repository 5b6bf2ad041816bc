// The judgement of a word with its six fields.
ghost use Rattle.std.specs.Prelude.{◌≡◌, List};
ghost use Rattle.model.specs.declared.text.Field.{Field};
ghost use Rattle.model.specs.Limits.{today};
ghost use Rattle.model.specs.Lines.{judged};
ghost use Rattle.columns.specs.Kept.{kept_fields};

use columns::field::KeptFields;
use model::answers::{Judgement, Refusal};
use model::text::Word;
use word_table::judge_known;

// Refusals 3, 4, 5 and 19 of a word with its fields, in this order.
#[tactic(auto, unfolding(model::specs::Lines::judged))]
pub fn judge(place: usize, w: Option<Word>, x: KeptFields) -> Judgement
    ensures { (fs : List Field) → x ≡ kept_fields fs → result ≡ judged today place w fs }
{
    let word = w.ok_or(Refusal::UnknownWord { line: place })?;
    judge_known(place, word, x)
}
