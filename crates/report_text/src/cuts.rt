//! Where bytes are cut.

ghost use Rattle.std.specs.Prelude.{◌≡◌, ◌==◌, not};
ghost use Rattle.std.specs.List.{prefix_len};
ghost use Rattle.report_text.specs.Slots.{IsBehindFront, IsFront};

// How many bytes stand before the first such byte.
fn front_len(bytes: &[u8], byte: u8) -> usize
    ensures { result ≡ prefix_len (λ b. not (b == byte)) bytes.now }
{
    bytes.iter().take_while(|b| **b != byte).count()
}

/// The bytes before the first such byte, and the others.
pub(crate) fn front(bytes: &[u8], byte: u8) -> (&[u8], &[u8])
    ensures { IsFront byte bytes.now result.0.now result.1.now }
{
    bytes.split_at(front_len(bytes, byte))
}

/// What stands behind the front, if the bytes have it.
pub(crate) fn behind<'a>(bytes: &'a [u8], front: &[u8]) -> Option<&'a [u8]>
    ensures { IsBehindFront front.now bytes.now result }
{
    bytes.strip_prefix(front)
}
