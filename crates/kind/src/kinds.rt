// How bytes, positions and cues lie in bytes. Numbers are little-endian.
ghost use Rattle.std.specs.Prelude.{◌<◌, refl};
ghost use Rattle.std.proofs.Common.{lit<, lit≤};
ghost use Rattle.kind.specs.Endian.{length-little_endian, bytes-little_endian};
ghost use Rattle.kind.specs.Packings.{byte_packed, byte_from, byte-again, position_packed, position_from, position-again, cue_packed, cue_from, cue-exact, cue-bytes, cue-again};

use crate::Kind;
use crate::element::{Byte, Cue, Position};
use crate::number::{byte_of, bytes_at};

impl Kind for Byte {
    ghost wide = { 1 };

    ghost aligned = { 1 };

    ghost packed = { byte_packed };

    ghost unpacked = { byte_from };

    ghost narrow = { (lit< tt, lit≤ tt) };

    ghost aligning = { ((0, refl), lit≤ tt) };

    ghost exact = { λ b. length-little_endian 1 b.value };

    ghost bytes = { λ b. bytes-little_endian 1 b.value };

    ghost again = { byte-again };

    fn width() -> usize {
        1
    }

    fn align() -> usize {
        1
    }

    fn byte(&self, i: usize) -> u8 {
        byte_of(self.value.to_le_bytes(), i)
    }

    fn unpack(bytes: &[u8; 64]) -> Byte {
        Byte {
            value: u8::from_le_bytes(bytes_at(bytes, 0)),
        }
    }
}

// Not one impl with Byte: each names its own field and its own laws, and the code in it is one line a field.
impl Kind for Position {
    ghost wide = { 4 };

    ghost aligned = { 4 };

    ghost packed = { position_packed };

    ghost unpacked = { position_from };

    ghost narrow = { (lit< tt, lit≤ tt) };

    ghost aligning = { ((2, refl), lit≤ tt) };

    ghost exact = { λ p. length-little_endian 4 p.at };

    ghost bytes = { λ p. bytes-little_endian 4 p.at };

    ghost again = { position-again };

    fn width() -> usize {
        4
    }

    fn align() -> usize {
        4
    }

    fn byte(&self, i: usize) -> u8 {
        byte_of(self.at.to_le_bytes(), i)
    }

    fn unpack(bytes: &[u8; 64]) -> Position {
        Position {
            at: u32::from_le_bytes(bytes_at(bytes, 0)),
        }
    }
}

impl Kind for Cue {
    ghost wide = { 16 };

    ghost aligned = { 8 };

    ghost packed = { cue_packed };

    ghost unpacked = { cue_from };

    ghost narrow = { (lit< tt, lit≤ tt) };

    ghost aligning = { ((3, refl), lit≤ tt) };

    ghost exact = { cue-exact };

    ghost bytes = { cue-bytes };

    ghost again = { cue-again };

    fn width() -> usize {
        16
    }

    fn align() -> usize {
        8
    }

    fn byte(&self, i: usize) -> u8 {
        match i {
            ..8 => byte_of(self.sample.to_le_bytes(), i),
            ..12 => byte_of(self.length.to_le_bytes(), i - 8),
            _ => byte_of(self.tag.to_le_bytes(), i - 12),
        }
    }

    fn unpack(bytes: &[u8; 64]) -> Cue {
        Cue {
            sample: u64::from_le_bytes(bytes_at(bytes, 0)),
            length: u32::from_le_bytes(bytes_at(bytes, 8)),
            tag: u32::from_le_bytes(bytes_at(bytes, 12)),
        }
    }
}
