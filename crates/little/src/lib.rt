// Little-endian numbers, read from a slice of bytes.
#![tactic(auto, unfolding(crate::specs::Little::quad, crate::specs::Little::word))]

ghost use Rattle.std.specs.Prelude.{◌≡◌, ◌+◌, ◌<◌, length};
ghost use Rattle.little.specs.Little.{word, quad};

// Two bytes, the low one first.
pub fn word(s: &[u8], at: usize) -> u16
    requires { at + 1 < length s.now }
    ensures { result ≡ word s.now at }
{
    u16::from_le_bytes([s[at], s[at + 1]])
}

// Four bytes, the low ones first.
pub fn quad(s: &[u8], at: usize) -> u32
    requires { at + 3 < length s.now }
    ensures { result ≡ quad s.now at }
{
    u32::from_le_bytes([s[at], s[at + 1], s[at + 2], s[at + 3]])
}
