// The linear congruential generator x -> 48271 x mod 2^31 - 1.

// The number after another.
pub fn next(x: u64) -> u64 {
    x % 2147483647 * 48271 % 2147483647
}

// A number to begin with, for the case n of a test.
pub fn start(test: u64, n: u64) -> u64 {
    next(next(n % 1048576 * 2048 + test % 2048 + 1))
}
