// Steps that the kinds share when they unpack 16 bytes.
ghost use Rattle.std.specs.Prelude.{◌≡◌, ◌+◌, ◌<◌, drop};
ghost use Rattle.values.specs.Packing.{first_nonzero, number_at};

// The first place from `start` on whose byte is not 0.
pub fn first_nonzero(b: [u8; 16], start: u8) -> Option<u8>
    ensures { result ≡ first_nonzero (drop start b) start }
{
    (start..16).find(|k| b[usize::from(*k)] != 0)
}

// The number of two bytes whose low one stands at `k`.
pub(crate) fn number_at(b: [u8; 16], k: usize) -> u16
    requires { k + 1 < 16 }
    ensures { result ≡ number_at b k }
{
    u16::from_le_bytes([b[k], b[k + 1]])
}
