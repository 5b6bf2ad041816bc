// Numbers in a table: bytes, least significant first.
ghost use Rattle.std.specs.Prelude.{◌≡◌, ◌+◌, ◌≤◌, length};
ghost use Rattle.model.specs.Machine.{bytes_of, read_bytes, write_bytes};

use model::machine::Width;

// The number that W bytes from an address on hold.
fn load_bytes<const W: usize>(s: &[u8], at: usize) -> u32
    requires { (W ≤ 4) × (at + W ≤ length s.now) }
    ensures { result ≡ read_bytes W s.now at }
{
    let mut bytes = [0; 4];
    bytes[..W].copy_from_slice(&s[at..at + W]);
    u32::from_le_bytes(bytes)
}

// The low W bytes of a number stored from an address on.
fn store_bytes<const W: usize>(s: &mut [u8], at: usize, x: u32)
    requires { (W ≤ 4) × (at + W ≤ length s.old) }
    ensures { s.new ≡ write_bytes W s.old at x }
{
    let bytes = x.to_le_bytes();
    s[at..at + W].copy_from_slice(&bytes[..W]);
}

// The number that an access of this width finds.
pub fn load(s: &[u8], at: usize, w: Width) -> u32
    requires { at + bytes_of w ≤ length s.now }
    ensures { result ≡ read_bytes (bytes_of w) s.now at }
{
    match w {
        Width::One => load_bytes::<1>(s, at),
        Width::Two => load_bytes::<2>(s, at),
        Width::Four => load_bytes::<4>(s, at),
    }
}

// An access of this width stores the low bytes of a number.
pub fn store(s: &mut [u8], at: usize, w: Width, x: u32)
    requires { at + bytes_of w ≤ length s.old }
    ensures { s.new ≡ write_bytes (bytes_of w) s.old at x }
{
    match w {
        Width::One => store_bytes::<1>(s, at, x),
        Width::Two => store_bytes::<2>(s, at, x),
        Width::Four => store_bytes::<4>(s, at, x),
    }
}
