// Whole numbers in bytes, high byte first.
ghost use Rattle.std.specs.Prelude.{◌≡◌, ◌+◌, ◌<◌, ◌≤◌, length, take, drop};
ghost use Rattle.lent.specs.Lent.{Written};
ghost use Rattle.records.specs.Records.{high_first, number_from};

use lent::put_slice;

// The last two bytes of a number.
#[tactic(auto, using(crate::proofs::ByteForms::short_bytes))]
pub fn put_short(b: &mut [u8], at: usize, n: u64) -> usize
    requires { at + 2 ≤ length b.old }
    ensures { Written b.old at (high_first 2 n) result b.new }
{
    let two = ((n % 65_536) as u16).to_be_bytes();
    put_slice(b, at, &two)
}

// The last four.
#[tactic(auto, using(crate::proofs::ByteForms::long_bytes))]
pub fn put_long(b: &mut [u8], at: usize, n: u64) -> usize
    requires { at + 4 ≤ length b.old }
    ensures { Written b.old at (high_first 4 n) result b.new }
{
    let four = ((n % 4_294_967_296) as u32).to_be_bytes();
    put_slice(b, at, &four)
}

// The number in two bytes.
#[tactic(auto, using(crate::proofs::ByteForms::short_read))]
pub fn short_at(s: &[u8], at: usize) -> u64
    requires { at + 2 ≤ length s.now }
    ensures { (result ≡ number_from 0 (take 2 (drop at s.now))) × (result < 65536) }
{
    u64::from(u16::from_be_bytes([s[at], s[at + 1]]))
}

// The number in four.
#[tactic(auto, using(crate::proofs::ByteForms::long_read))]
pub fn long_at(s: &[u8], at: usize) -> u64
    requires { at + 4 ≤ length s.now }
    ensures { (result ≡ number_from 0 (take 4 (drop at s.now))) × (result < 4294967296) }
{
    u64::from(u32::from_be_bytes([s[at], s[at + 1], s[at + 2], s[at + 3]]))
}
