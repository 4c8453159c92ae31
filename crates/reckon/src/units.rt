// The units in which the functions count, and ln 2.

// One, in units of 10^-9.
pub const E9: u64 = 1_000_000_000;

// One, in units of 10^-10.
pub const E10: u64 = 10_000_000_000;

// One, in units of 10^-12.
pub const E12: u64 = 1_000_000_000_000;

// ln 2 in units of 10^-10.
pub const LN2: u64 = 6_931_471_805;
