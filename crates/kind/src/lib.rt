// Kinds of elements: how wide each is, how it is aligned, and how it lies in bytes.
#![tactic(auto)]

ghost use Rattle.std.specs.Prelude.{◌≡◌, ℕ, ◌<◌, ◌≤◌, List, length, take, slice_index};
ghost use Rattle.kind.specs.Bytes.{AllBytes, PowerOfTwo};

mod element;
mod kinds;
mod number;

pub use element::{Byte, Cue, Position};

// A kind packs each of its elements into as many bytes as it is wide, and gets the element back from them.
pub trait Kind: Copy {
    ghost wide: { ℕ };

    ghost aligned: { ℕ };

    ghost packed: { Self → List ℕ };

    ghost unpacked: { List ℕ → Self };

    fn width() -> usize
        ensures { result ≡ wide };

    fn align() -> usize
        ensures { result ≡ aligned };

    // The packing's byte at that index, and 0 past its end.
    fn byte(&self, i: usize) -> u8
        ensures { result ≡ slice_index (packed self.now) i };

    // The element whose packing the buffer begins with. 64 is the widest a kind may be: an array of the kind's own width would want a
    // computed const argument, which Rattle does not have.
    fn unpack(bytes: &[u8; 64]) -> Self
        ensures { result ≡ unpacked (take wide bytes.now) };

    ghost narrow: { (0 < wide) × (wide ≤ 64) };

    ghost aligning: { PowerOfTwo aligned × (aligned ≤ 16) };

    ghost exact: { (x : Self) → length (packed x) ≡ wide };

    ghost bytes: { (x : Self) → AllBytes (packed x) };

    ghost again: { (x : Self) → unpacked (packed x) ≡ x };
}
