// The sizes of blocks.
ghost use Rattle.std.specs.Prelude.{ℕ, ◌<◌, ◌≤◌, MatchOption};
ghost use Rattle.arena.specs.Powers.{LeastPower};

// 2^4 to 2^26, in a table by a rule of the product.
const POWERS: [usize; 23] = [
    16, 32, 64, 128, 256, 512, 1024, 2048, 4096, 8192, 16384, 32768, 65536, 131072, 262144, 524288,
    1048576, 2097152, 4194304, 8388608, 16777216, 33554432, 67108864,
];

// The least power of two at or above n, unless that is larger than any block.
pub(crate) fn least_power(n: usize) -> Option<usize>
    requires { 16 ≤ n }
    ensures { MatchOption result (67108864 < n) (LeastPower n) }
{
    POWERS.iter().copied().find(|power| n <= *power)
}
