// Reads a card's text, and never more than a card may have.
ghost use Rattle.std.specs.Prelude.{◌≡◌, ◌<◌, ◌≤◌, length, vec_len, IfSome, IfOk, MatchOption};

use cards::MOST_BYTES;
use std::alloc::Global;
use std::io::Read;

// The bytes of the input; absent where it has more. One byte more than a card may have is asked for, to see that the input ends.
pub fn read<R: Read + Drop>(input: R, heap: Global) -> anyhow::Result<Option<Vec<u8>>>
    ensures few { IfOk result (λ o. IfSome o (λ text. vec_len text ≤ 32768)) }
    ensures bytes { IfSome (R.remaining input) (λ bytes. IfOk result (λ o. MatchOption o (32768 < length bytes) (λ text. text.items ≡ bytes))) }
{
    // Room for all of it at once, and a byte to spare: the end is met with no growth.
    let mut text = Vec::with_capacity(heap, MOST_BYTES + 2)?;
    let len = input.take(MOST_BYTES as u64 + 1).read_to_end(&mut text)?;
    Ok((len <= MOST_BYTES).then_some(text))
}
