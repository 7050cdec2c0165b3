// The elements: their numbers, each within its width.
ghost use Rattle.std.specs.Prelude.{◌^◌, ◌<◌};

#[derive(Clone, Copy, Debug, PartialEq, Eq)]
pub struct Byte {
    pub value: u8,
    ghost fits: { value < 2 ^ 8 },
}

// A sample's number on the reel.
#[derive(Clone, Copy, Debug, PartialEq, Eq)]
pub struct Position {
    pub at: u32,
    ghost fits: { at < 2 ^ 32 },
}

// A stretch of the reel under a tag, from that sample on.
#[derive(Clone, Copy, Debug, PartialEq, Eq)]
pub struct Cue {
    pub sample: u64,
    pub length: u32,
    pub tag: u32,
    ghost fits: { sample < 2 ^ 64 },
    ghost short: { length < 2 ^ 32 },
    ghost small: { tag < 2 ^ 32 },
}
