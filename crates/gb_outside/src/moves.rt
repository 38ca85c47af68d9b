//! Moves bytes from one slice to another.
ghost use Rattle.std.specs.Prelude.{◌≡◌, length, take, drop, min};

/// Moves as many of the bytes as there is room for, from their front, and answers what is left.
pub(crate) fn move_front<'a>(bytes: &'a [u8], into: &mut [u8]) -> (usize, &'a [u8])
    ensures count { result.0 ≡ min (length bytes.now) (length into.old) }
    ensures moved { take result.0 into.new ≡ take result.0 bytes.now }
    ensures rest { result.1.now ≡ drop result.0 bytes.now }
{
    let n = bytes.len().min(into.len());
    let (front, rest) = bytes.split_at(n);
    into[..n].copy_from_slice(front);
    (n, rest)
}
