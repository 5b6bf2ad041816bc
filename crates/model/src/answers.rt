// The answers: why something is turned back, what the checker says, where claim lines stand, how a run ended.
use crate::machine::State;

// Why a listing, a state or a call is turned back: a case for each number from 1 to 20, in their order, with the lines that it names.
#[derive(Clone, Copy)]
pub enum Refusal {
    ListingLength,
    LineBytes { line: usize },
    UnknownWord { line: usize },
    FieldShape { line: usize },
    NumberLimits { line: usize },
    ClaimOrder { line: usize },
    LastLineClaim { line: usize },
    TooManyPoints { line: usize },
    NoSuchTarget { line: usize },
    NoEnd { line: usize },
    EmptyStart { line: usize },
    DivisorMayBeZero { line: usize },
    AccessMayLeave { line: usize },
    ClaimMayFail { line: usize, claim: usize },
    TableLength,
    NoSuchPoint,
    ClaimsNotMet,
    NoRoom,
    SameRegister { line: usize },
    UncoveredEdge { line: usize },
}

// What becomes of something that is tested: it is accepted, or a refusal turns it back.
pub type Judgement = Result<(), Refusal>;

// The checker's answer: the number of points of a listing that passes, or the refusal.
pub type Verdict = Result<usize, Refusal>;

// The answer for the steps that a listing needs: a bound of a listing that passes, or the refusal.
pub type StepBound = Result<u64, Refusal>;

// The part of a listing that holds the claim lines of a point: where it begins, and how many bytes it has.
#[derive(Clone, Copy)]
pub struct ClaimPart {
    pub offset: usize,
    pub length: usize,
}

// How a run ended.
#[derive(Clone, Copy)]
pub enum Report {
    Stopped,
    Paused,
    Refused(Refusal),
}

// What a run hands back.
#[derive(Clone, Copy)]
pub struct Outcome {
    pub report: Report,
    pub state: State,
    pub steps: u32,
}
