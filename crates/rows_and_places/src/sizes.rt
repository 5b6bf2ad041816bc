// How many rows and places are lent for a listing.
use model::limits::{GREATEST_POINTS, LINE_BYTES};

// Listings by their lines, each with a row for each line, so that no call pays for the longest: few, short and long.
pub const FEW_LINES: usize = 16;

pub const SHORT_LINES: usize = 64;

pub const LONG_LINES: usize = 512;

// The bytes of the longest listing of each.
pub const FEW_LISTING: usize = FEW_LINES * LINE_BYTES;

pub const SHORT_LISTING: usize = SHORT_LINES * LINE_BYTES;

pub const LONG_LISTING: usize = LONG_LINES * LINE_BYTES;

// The places: one for each point, and one for the point that is one too many.
pub const PLACES: usize = GREATEST_POINTS + 1;
