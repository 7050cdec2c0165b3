// Parts of arrays of bytes, at every width: the number that the caller makes of them, or takes them from, says how wide.
ghost use Rattle.std.specs.Prelude.{◌≡◌, ◌+◌, ◌≤◌, take, drop, slice_index};

// The byte at that index, and 0 past the last.
pub(crate) fn byte_of<const N: usize>(bytes: [u8; N], i: usize) -> u8
    ensures { result ≡ slice_index bytes.entry i }
{
    bytes.get(i).copied().unwrap_or(0)
}

// The bytes that begin at that index. The array is as wide as a kind may be: one of the kind's own width would want a
// computed const argument.
pub(crate) fn bytes_at<const N: usize>(bytes: &[u8; 64], at: usize) -> [u8; N]
    requires { at + N ≤ 64 }
    ensures { result ≡ take N (drop at bytes.now) }
{
    bytes[at..at + N].try_into().unwrap()
}
