// The counts and limits of document 01, with the scale and the bound of document 02, as the code uses them. That each is the one of the definitions is proved below.
ghost use Rattle.std.specs.Prelude.{◌≡◌, [], ◌∷◌};
ghost use Rattle.model.specs.Limits as Limits;

// The registers, variables 0 to 15.
pub const REGISTERS: usize = 16;

// The tables.
pub const TABLES: usize = 2;

// The variables that are the sizes of the tables.
pub const TRAYS_SIZE: usize = REGISTERS;

pub const RESULTS_SIZE: usize = REGISTERS + 1;

// All variables: the registers, and behind them the sizes of the tables.
pub const VARIABLES: usize = REGISTERS + TABLES;

// Stands for a blank z: one past the last variable.
pub const BLANK_VARIABLE: usize = VARIABLES;

// The greatest value of a register.
pub const MAX: u64 = 4_294_967_295;

// Sums, differences and products are reduced modulo this.
pub const MODULUS: u64 = 4_294_967_296;

// The greatest size of a table in bytes.
pub const GREATEST_SIZE: u64 = 65_536;

// The greatest scale of a stripe or an access.
pub const GREATEST_SCALE: u64 = 4_095;

// The greatest offset of an access.
pub const GREATEST_OFFSET: u64 = 65_535;

// The greatest bound of a stripe, with or without a minus.
pub const GREATEST_BOUND: u64 = 70_368_744_177_664;

// The greatest number of points; targets lie below it.
pub const GREATEST_POINTS: usize = 512;

// The greatest number of stripes at a point.
pub const GREATEST_STRIPES: usize = 8;

// The links within which a stripe goal must follow.
pub const GREATEST_LINKS: usize = 3;

// The bytes of a line.
pub const LINE_BYTES: usize = 40;

// The greatest number of bytes of a listing.
pub const GREATEST_LISTING: usize = 65_520;

// The greatest number of lines of a listing.
pub const GREATEST_LINES: usize = 1_638;

// All of them, in the order of the definitions.
pub fn all() -> [u64; 16]
    ensures { result ≡ Limits.registers ∷ Limits.tables ∷ Limits.variables ∷ Limits.blank_variable ∷ Limits.MAX ∷ Limits.modulus ∷ Limits.greatest_size ∷ Limits.greatest_scale ∷ Limits.greatest_offset ∷ Limits.greatest_bound ∷ Limits.greatest_points ∷ Limits.greatest_stripes ∷ Limits.greatest_links ∷ Limits.line_bytes ∷ Limits.greatest_listing ∷ Limits.greatest_lines ∷ [] }
{
    [
        REGISTERS as u64,
        TABLES as u64,
        VARIABLES as u64,
        BLANK_VARIABLE as u64,
        MAX,
        MODULUS,
        GREATEST_SIZE,
        GREATEST_SCALE,
        GREATEST_OFFSET,
        GREATEST_BOUND,
        GREATEST_POINTS as u64,
        GREATEST_STRIPES as u64,
        GREATEST_LINKS as u64,
        LINE_BYTES as u64,
        GREATEST_LISTING as u64,
        GREATEST_LINES as u64,
    ]
}
