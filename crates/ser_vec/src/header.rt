// What a vector with capacity has on record of its span.
ghost use Rattle.std.specs.Prelude.{◌<◌, ◌≤◌};

use session::Grant;

#[derive(Drop)]
pub struct Header {
    pub(crate) grant: Grant,
    pub(crate) at: usize,
    pub(crate) cap: usize,
    pub(crate) len: usize,
    ghost some: { 0 < cap },
    ghost small: { cap ≤ 16777216 },
    ghost fits: { len ≤ cap },
}
