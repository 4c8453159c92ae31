// Numbers as decimal digits: written into lent bytes from a place on, counted, and read. Each function
// that writes returns the place after what it wrote, and leaves every other byte as it was.
#![tactic(auto)]

mod read;

ghost use Rattle.std.specs.Prelude.{◌≡◌, ◌+◌, ◌≤◌, length};
ghost use Rattle.lent.specs.Lent.{Written};
ghost use Rattle.numerals.specs.Render.{render, render_signed, ended};

use lent::put_byte;
pub use read::plain_number;

// A number in decimal digits.
pub fn put_number(b: &mut [u8], at: usize, n: u64) -> usize
    requires { at + length (render n) ≤ length b.old }
    ensures { Written b.old at (render n) result b.new }
{
    if n < 10 {
        return put_byte(b, at, b'0' + n as u8);
    }
    let p = put_number(b, at, n / 10);
    put_byte(b, p, b'0' + (n % 10) as u8)
}

// The same of either sign, a minus sign before it if it is below 0.
pub fn put_signed(b: &mut [u8], at: usize, z: i64) -> usize
    requires { at + length (render_signed z) ≤ length b.old }
    ensures { Written b.old at (render_signed z) result b.new }
{
    let n = z.unsigned_abs();
    if z < 0 {
        let p = put_byte(b, at, b'-');
        return put_number(b, p, n);
    }
    put_number(b, at, n)
}

// A number and the byte that ends it.
pub fn put_ended(b: &mut [u8], at: usize, n: u64, end: u8) -> usize
    requires { at + length (ended n end) ≤ length b.old }
    ensures { Written b.old at (ended n end) result b.new }
{
    let p = put_number(b, at, n);
    put_byte(b, p, end)
}

// How many bytes put_number writes.
pub fn digits(n: u64) -> usize
    ensures { (result ≡ length (render n)) × (result ≤ 20) }
{
    if n < 10 {
        return 1;
    }
    digits(n / 10) + 1
}

// How many bytes put_signed writes.
#[tactic(auto, using(crate::proofs::RenderLaws::below_zero, crate::proofs::RenderLaws::not_below_zero))]
pub fn width(z: i64) -> usize
    ensures { (result ≡ length (render_signed z)) × (result ≤ 21) }
{
    let n = digits(z.unsigned_abs());
    if z < 0 {
        return n + 1;
    }
    n
}
