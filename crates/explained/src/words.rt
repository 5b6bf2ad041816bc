// The words of each refusal, those of README's table.
ghost use Rattle.std.specs.Prelude.{◌≡◌};
ghost use Rattle.explained.specs.Explanation.{meaning_of, advice_of};

use model::answers::Refusal;

// What a refusal means, and what to do about it.
#[derive(Clone, Copy)]
pub struct RefusalWords {
    pub meaning: &'static [u8],
    pub advice: &'static [u8],
}

// The words of each.
const LISTING_LENGTH: RefusalWords = RefusalWords {
    meaning: b"no line at all, more than 1,638 of them, or one that is cut short",
    advice: b"save whole lines of 40 bytes",
};

const LINE_BYTES: RefusalWords = RefusalWords {
    meaning: b"a byte that cannot stand in a line, or a line without its end",
    advice: b"look at the bytes of the line",
};

const UNKNOWN_WORD: RefusalWords = RefusalWords {
    meaning: b"the first four columns are no word",
    advice: b"correct the word",
};

const FIELD_SHAPE: RefusalWords = RefusalWords {
    meaning: b"a field has the wrong shape, is missing, or is filled where it is due blank",
    advice: b"right-justify the number; clear what is not named",
};

const NUMBER_LIMITS: RefusalWords = RefusalWords {
    meaning: b"a number is outside its limits",
    advice: b"look up the field's limits",
};

const CLAIM_ORDER: RefusalWords = RefusalWords {
    meaning: b"a claim out of order, repeated, a ninth STRP, or a TURN after line 1",
    advice: b"TURN on line 1; LEAS, then MOST, each by rising variable; then at most 8 STRP",
};

const LAST_LINE_CLAIM: RefusalWords = RefusalWords {
    meaning: b"the last line is a claim",
    advice: b"put its instruction after it",
};

const TOO_MANY_POINTS: RefusalWords = RefusalWords {
    meaning: b"more than 512 points",
    advice: b"split the routine",
};

const NO_SUCH_TARGET: RefusalWords = RefusalWords {
    meaning: b"a target that is no point",
    advice: b"points count from 0",
};

const NO_END: RefusalWords = RefusalWords {
    meaning: b"the routine could go on past its last instruction",
    advice: b"end it with STOP or JUMP",
};

const EMPTY_START: RefusalWords = RefusalWords {
    meaning: b"the ranges claimed at point 0 are empty",
    advice: b"mend LEAS or MOST",
};

const DIVISOR_MAY_BE_ZERO: RefusalWords = RefusalWords {
    meaning: b"a divisor may be zero",
    advice: b"guard it, and claim LEAS 1",
};

const ACCESS_MAY_LEAVE: RefusalWords = RefusalWords {
    meaning: b"an access may leave its table",
    advice: b"claim a stripe of the table's size",
};

const CLAIM_MAY_FAIL: RefusalWords = RefusalWords {
    meaning: b"a claim of a next point does not follow",
    advice: b"claim more before, or less there",
};

const TABLE_LENGTH: RefusalWords = RefusalWords {
    meaning: b"a table has more than 65,536 bytes",
    advice: b"split the table",
};

const NO_SUCH_POINT: RefusalWords = RefusalWords {
    meaning: b"the state's point does not exist",
    advice: b"look at the state's JUMP line",
};

const CLAIMS_NOT_MET: RefusalWords = RefusalWords {
    meaning: b"the state does not meet the claims of its point",
    advice: b"compare the registers and the sizes of the tables with the claims there",
};

const NO_ROOM: RefusalWords = RefusalWords {
    meaning: b"the listing has no room for the line",
    advice: b"lend more bytes; lines count from 1 to 1,638",
};

const SAME_REGISTER: RefusalWords = RefusalWords {
    meaning: b"quotient and remainder are to go to the same register",
    advice: b"name two registers, one in F1 and one in F3",
};

const UNCOVERED_EDGE: RefusalWords = RefusalWords {
    meaning: b"a way back is not covered by the TURN register",
    advice: b"go back by a JUMP right after a SUBW of that register, with LEAS for it",
};

// The words of a refusal.
pub fn words(r: Refusal) -> RefusalWords
    ensures { (result.meaning.now ≡ meaning_of r) × (result.advice.now ≡ advice_of r) }
{
    match r {
        Refusal::ListingLength => LISTING_LENGTH,
        Refusal::LineBytes { line: _ } => LINE_BYTES,
        Refusal::UnknownWord { line: _ } => UNKNOWN_WORD,
        Refusal::FieldShape { line: _ } => FIELD_SHAPE,
        Refusal::NumberLimits { line: _ } => NUMBER_LIMITS,
        Refusal::ClaimOrder { line: _ } => CLAIM_ORDER,
        Refusal::LastLineClaim { line: _ } => LAST_LINE_CLAIM,
        Refusal::TooManyPoints { line: _ } => TOO_MANY_POINTS,
        Refusal::NoSuchTarget { line: _ } => NO_SUCH_TARGET,
        Refusal::NoEnd { line: _ } => NO_END,
        Refusal::EmptyStart { line: _ } => EMPTY_START,
        Refusal::DivisorMayBeZero { line: _ } => DIVISOR_MAY_BE_ZERO,
        Refusal::AccessMayLeave { line: _ } => ACCESS_MAY_LEAVE,
        Refusal::ClaimMayFail { line: _, claim: _ } => CLAIM_MAY_FAIL,
        Refusal::TableLength => TABLE_LENGTH,
        Refusal::NoSuchPoint => NO_SUCH_POINT,
        Refusal::ClaimsNotMet => CLAIMS_NOT_MET,
        Refusal::NoRoom => NO_ROOM,
        Refusal::SameRegister { line: _ } => SAME_REGISTER,
        Refusal::UncoveredEdge { line: _ } => UNCOVERED_EDGE,
    }
}
