// The lines of a listing in order: what has been read so far, and the first refusal.
#![tactic(auto)]

ghost use Rattle.std.specs.Prelude.{◌≡◌, ◌≤◌, ◌<◌, [], Ok};
ghost use Rattle.model.specs.Limits.{greatest_stripes, greatest_lines};
ghost use Rattle.model.specs.Listing.{going};
ghost use Rattle.scan.specs.Scan.{may_come, stripes_of, in_order_after, after_scan, progress_of, Within};

use model::answers::Refusal;
use model::limits::GREATEST_STRIPES;

// What decides where a claim may stand: its word, in the order in which the words stand, and the variable of LEAS and MOST.
#[derive(Clone, Copy, PartialEq, Eq, PartialOrd, Ord)]
pub enum Order {
    Turn,
    Leas(u64),
    Most(u64),
    Strp,
}

// What has been read so far: the points, and of the claims since the last of them how many, how many stripes, and the order of the last.
#[derive(Clone, Copy)]
pub struct Scan {
    pub points: usize,
    pub claims: usize,
    pub stripes: usize,
    pub last: Option<Order>,
}

// Whether a claim on the k-th line may stand after the last one of its point: a later word, a later variable of the same word, or one stripe after another.
// TURN stands only on the first line of all.
fn may_come(last: Option<Order>, k: usize, c: Order) -> bool
    ensures { result ≡ may_come last k c }
{
    match last {
        None => c != Order::Turn || k == 0,
        Some(b) => b < c || (b == Order::Strp && c == Order::Strp),
    }
}

// 1 for a stripe, 0 for any other claim.
fn stripes_of(c: Order) -> usize
    ensures { (result ≡ stripes_of c) × (result ≤ 1) }
{
    usize::from(c == Order::Strp)
}

// Whether a claim on the k-th line stands in order after those read.
fn in_order(q: Scan, k: usize, c: Order) -> bool
    requires { q.stripes ≤ greatest_stripes }
    ensures { result ≡ in_order_after q k c }
{
    may_come(q.last, k, c) && q.stripes + stripes_of(c) <= GREATEST_STRIPES
}

impl Scan {
    // Before the first line.
    pub fn new() -> Scan
        ensures { Ok result ≡ progress_of (going [] []) }
    {
        Scan {
            points: 0,
            claims: 0,
            stripes: 0,
            last: None,
        }
    }

    // What has been read after the k-th line, counted from 0: a claim of this order, or an instruction where there is none.
    pub fn after(self, k: usize, line: Option<Order>) -> Result<Scan, Refusal>
        requires { (k < greatest_lines) × Within self k }
        ensures { result ≡ after_scan (Ok self) k line }
    {
        match line {
            Some(c) if in_order(self, k, c) => Ok(Scan {
                points: self.points,
                claims: self.claims + 1,
                stripes: self.stripes + stripes_of(c),
                last: Some(c),
            }),
            Some(_) => Err(Refusal::ClaimOrder { line: k + 1 }),
            None => Ok(Scan {
                points: self.points + 1,
                claims: 0,
                stripes: 0,
                last: None,
            }),
        }
    }
}
