// The number and the places of a refusal.
ghost use Rattle.std.specs.Prelude.{◌≡◌};
ghost use Rattle.model.specs.Answers.{number_of, place_of, second_place_of};

use model::answers::Refusal;

// What a refusal is told by: its number, its place and its second place; 0 is no place.
#[derive(Clone, Copy)]
pub struct RefusalNumbers {
    pub number: u64,
    pub place: u64,
    pub second: u64,
}

// The same, with lines as places.
fn number_and_lines(r: Refusal) -> (u64, usize, usize)
    ensures { (result.0 ≡ number_of r) × (result.1 ≡ place_of r) × (result.2 ≡ second_place_of r) }
{
    match r {
        Refusal::ListingLength => (1, 0, 0),
        Refusal::LineBytes { line } => (2, line, 0),
        Refusal::UnknownWord { line } => (3, line, 0),
        Refusal::FieldShape { line } => (4, line, 0),
        Refusal::NumberLimits { line } => (5, line, 0),
        Refusal::ClaimOrder { line } => (6, line, 0),
        Refusal::LastLineClaim { line } => (7, line, 0),
        Refusal::TooManyPoints { line } => (8, line, 0),
        Refusal::NoSuchTarget { line } => (9, line, 0),
        Refusal::NoEnd { line } => (10, line, 0),
        Refusal::EmptyStart { line } => (11, line, 0),
        Refusal::DivisorMayBeZero { line } => (12, line, 0),
        Refusal::AccessMayLeave { line } => (13, line, 0),
        Refusal::ClaimMayFail { line, claim } => (14, line, claim),
        Refusal::TableLength => (15, 0, 0),
        Refusal::NoSuchPoint => (16, 0, 0),
        Refusal::ClaimsNotMet => (17, 0, 0),
        Refusal::NoRoom => (18, 0, 0),
        Refusal::SameRegister { line } => (19, line, 0),
        Refusal::UncoveredEdge { line } => (20, line, 0),
    }
}

// The number and the places of a refusal.
pub fn numbers(r: Refusal) -> RefusalNumbers
    ensures { (result.number ≡ number_of r) × (result.place ≡ place_of r) × (result.second ≡ second_place_of r) }
{
    let (number, line, second_line) = number_and_lines(r);
    RefusalNumbers {
        number,
        place: line as u64,
        second: second_line as u64,
    }
}
