// The words: the four bytes of each, and the word that a line begins with.
ghost use Rattle.std.specs.Prelude.{◌≡◌, ◌≤◌, length};
ghost use Rattle.model.specs.Words.{text_of, begins, words, word_among};

use columns::fours::same;
use model::text::Word;

// The words as they stand on a line.
const STOP: [u8; 4] = *b"STOP";

const SETC: [u8; 4] = *b"SETC";

const COPY: [u8; 4] = *b"COPY";

const ADDW: [u8; 4] = *b"ADDW";

const SUBW: [u8; 4] = *b"SUBW";

const MULW: [u8; 4] = *b"MULW";

const DIVF: [u8; 4] = *b"DIVF";

const LOAD: [u8; 4] = *b"LOAD";

const STOR: [u8; 4] = *b"STOR";

const JUMP: [u8; 4] = *b"JUMP";

const BLTU: [u8; 4] = *b"BLTU";

const BEQU: [u8; 4] = *b"BEQU";

const LEAS: [u8; 4] = *b"LEAS";

const MOST: [u8; 4] = *b"MOST";

const STRP: [u8; 4] = *b"STRP";

const DIVM: [u8; 4] = *b"DIVM";

const TURN: [u8; 4] = *b"TURN";

// The four bytes of a word.
pub fn text(w: Word) -> [u8; 4]
    ensures { result ≡ text_of w }
{
    match w {
        Word::Stop => STOP,
        Word::Setc => SETC,
        Word::Copy => COPY,
        Word::Addw => ADDW,
        Word::Subw => SUBW,
        Word::Mulw => MULW,
        Word::Divf => DIVF,
        Word::Load => LOAD,
        Word::Stor => STOR,
        Word::Jump => JUMP,
        Word::Bltu => BLTU,
        Word::Bequ => BEQU,
        Word::Leas => LEAS,
        Word::Most => MOST,
        Word::Strp => STRP,
        Word::Divm => DIVM,
        Word::Turn => TURN,
    }
}

// The line begins with the four bytes of the word.
pub fn begins_with(l: &[u8], w: Word) -> bool
    requires { 4 ≤ length l.now }
    ensures { result ≡ begins l.now (text_of w) }
{
    same([l[0], l[1], l[2], l[3]], text(w))
}

// The word of a line, found by one comparison after the other: a match on the bytes took up to a twelfth longer, a loop over all words a tenth.
#[tactic(auto, unfolding(model::specs::Words::word_among))]
pub fn find_word(l: &[u8]) -> Option<Word>
    requires { 4 ≤ length l.now }
    ensures { result ≡ word_among words l.now }
{
    if begins_with(l, Word::Stop) {
        return Some(Word::Stop);
    }
    if begins_with(l, Word::Setc) {
        return Some(Word::Setc);
    }
    if begins_with(l, Word::Copy) {
        return Some(Word::Copy);
    }
    if begins_with(l, Word::Addw) {
        return Some(Word::Addw);
    }
    if begins_with(l, Word::Subw) {
        return Some(Word::Subw);
    }
    if begins_with(l, Word::Mulw) {
        return Some(Word::Mulw);
    }
    if begins_with(l, Word::Divf) {
        return Some(Word::Divf);
    }
    if begins_with(l, Word::Load) {
        return Some(Word::Load);
    }
    if begins_with(l, Word::Stor) {
        return Some(Word::Stor);
    }
    if begins_with(l, Word::Jump) {
        return Some(Word::Jump);
    }
    if begins_with(l, Word::Bltu) {
        return Some(Word::Bltu);
    }
    if begins_with(l, Word::Bequ) {
        return Some(Word::Bequ);
    }
    if begins_with(l, Word::Leas) {
        return Some(Word::Leas);
    }
    if begins_with(l, Word::Most) {
        return Some(Word::Most);
    }
    if begins_with(l, Word::Strp) {
        return Some(Word::Strp);
    }
    if begins_with(l, Word::Divm) {
        return Some(Word::Divm);
    }
    if begins_with(l, Word::Turn) {
        return Some(Word::Turn);
    }
    None
}
