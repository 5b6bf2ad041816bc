// The table of the words: what each asks of its six fields.
#![tactic(auto)]

ghost use Rattle.std.specs.Prelude.{◌≡◌, List, Some};
ghost use Rattle.model.specs.declared.text.Field.{Field};
ghost use Rattle.model.specs.Limits.{today};
ghost use Rattle.model.specs.Lines.{judged};
ghost use Rattle.columns.specs.Kept.{kept_fields};
ghost use Rattle.field_tests.specs.Asked.{row_judged};
ghost use Rattle.word_table.specs.WordRows.{asked_row};

use columns::field::KeptFields;
use field_tests::asked::{
    AskedRow, bound, choice, claimed, empty, number, offset, operand, reg, row, scale, table,
    target, var, var_or_empty, width,
};
use field_tests::row_test::judge_row;
use model::answers::Judgement;
use model::text::Word;

// 4, 5 and 19 of a word's fields F1 to F6, whose numbers are here a to f: a row for each word, or for several that ask the same. DIVM alone writes two registers.
#[tactic(auto, unfolding(model::specs::Words::fields_of, model::specs::Words::within, field_tests::specs::Asked::asked_of))]
fn judge_by_row(place: usize, w: Word, x: KeptFields) -> Judgement
    ensures { result ≡ row_judged place x.shapes (asked_row w x) }
{
    let judged = |r: AskedRow| judge_row(place, x.shapes, r);
    let a = x.first;
    let b = x.second;
    let c = x.third;
    let d = x.fourth;
    let e = x.fifth;
    let f = x.sixth;
    match w {
        Word::Stop => judged(row(empty(), empty(), empty(), empty(), empty(), empty())),
        Word::Setc => judged(row(reg(a), empty(), empty(), empty(), empty(), number(f))),
        Word::Copy => judged(row(reg(a), var(b), empty(), empty(), empty(), empty())),
        Word::Addw | Word::Subw | Word::Mulw | Word::Divf => judged(row(
            reg(a),
            var(b),
            empty(),
            empty(),
            choice(e),
            operand(f, e),
        )),
        Word::Load => judged(row(reg(a), width(b), table(c), scale(d), var(e), offset(f))),
        Word::Stor => judged(row(var(a), width(b), empty(), scale(d), var(e), offset(f))),
        Word::Jump => judged(row(empty(), empty(), empty(), target(d), empty(), empty())),
        Word::Bltu | Word::Bequ => judged(row(
            empty(),
            var(b),
            empty(),
            target(d),
            choice(e),
            operand(f, e),
        )),
        Word::Leas | Word::Most => judged(row(
            var(a),
            empty(),
            empty(),
            empty(),
            empty(),
            claimed(f, a),
        )),
        Word::Strp => judged(row(
            var(a),
            scale(b),
            var(c),
            var_or_empty(x.shape(3), d),
            empty(),
            bound(x.shape(5), f),
        )),
        Word::Divm => judged(AskedRow {
            differ: a != c,
            ..row(reg(a), var(b), reg(c), empty(), choice(e), operand(f, e))
        }),
        Word::Turn => judged(row(reg(a), empty(), empty(), empty(), empty(), empty())),
    }
}

// 4, 5 and 19 of a word's fields.
pub fn judge_known(place: usize, w: Word, x: KeptFields) -> Judgement
    ensures { (fs : List Field) → x ≡ kept_fields fs → result ≡ judged today place (Some w) fs }
{
    judge_by_row(place, w, x)
}
