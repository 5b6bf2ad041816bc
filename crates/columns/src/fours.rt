// Four bytes compared at once.
ghost use Rattle.std.specs.Prelude.{◌≡◌};
ghost use Rattle.model.specs.Words.{begins};

// Two times four bytes are the same, told by one comparison of numbers: byte by byte reading took a fifth longer.
pub fn same(a: [u8; 4], b: [u8; 4]) -> bool
    ensures { result ≡ begins a b }
{
    u32::from_le_bytes(a) == u32::from_le_bytes(b)
}
