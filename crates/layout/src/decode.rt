//! Bytes by place.
ghost use Rattle.std.specs.Prelude.{◌≡◌, ◌^◌, ◌<◌};
ghost use Rattle.layout.specs.Decoding.{byte, word};

// A byte, and 0 past the end.
pub fn byte(list: &[u8], i: usize) -> u8
    ensures { result ≡ byte list.now i }
{
    list.get(i).copied().unwrap_or(0)
}

// Two bytes, the higher first.
pub(crate) fn word(list: &[u8], i: usize) -> u16
    requires { i < 2 ^ 63 }
    ensures { result ≡ word list.now i }
{
    u16::from_be_bytes([byte(list, i), byte(list, i + 1)])
}
