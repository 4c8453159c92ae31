// An answer as a line of text, written into lent bytes: counted first, so that a line too long for
// them changes none.
ghost use Rattle.std.specs.Prelude.{◌≡◌, ◌+◌, ◌<◌, ◌≤◌, length, Result, MatchResult};
ghost use Rattle.refusals.specs.declared.Refusal.TheVariants as No;
ghost use Rattle.lent.specs.Lent.{Written, LentWritten};
ghost use Rattle.lines.specs.Lines.{letter_of, columns, letters, spaced, ok_line, number_line};

use crate::numbered::Numbered;
use lent::{put_byte, put_slice};
use numerals::{digits, put_ended};
use refusals::Refusal;
use request::{Field, Request};

// Whether what is lent has room for what is wanted; else TooLong.
pub fn room(lent: usize, wanted: usize) -> Result<(), Refusal>
    ensures { MatchResult result (λ _. wanted ≤ lent) (λ refusal. (refusal ≡ No.TooLong) × (lent < wanted)) }
{
    if lent < wanted {
        return Err(Refusal::TooLong);
    }
    Ok(())
}

// The five figures that a line shows.
fn columns(c: Request) -> [Field; 5]
    ensures { result ≡ columns c }
{
    [c.dip, c.w, c.ztor, c.rrup, c.z25]
}

// The letter of a figure's origin.
#[tactic(auto, unfolding(crate::specs::Lines::letter_of))]
fn letter_of(f: Field) -> u8
    ensures { result ≡ letter_of f }
{
    match f {
        Field::Measured(_) => b'm',
        Field::Inferred(_) => b'i',
        Field::Estimated(_) => b'e',
        Field::Blank => b'-',
    }
}

// A figure and the space after it.
#[tactic(auto, unfolding(crate::specs::Lines::spaced))]
fn put_figure(out: &mut [u8], at: usize, f: Field) -> usize
    requires { at + length (spaced f) ≤ length out.old }
    ensures { Written out.old at (spaced f) result out.new }
{
    put_ended(out, at, f.size(), b' ')
}

// The five letters and the LF.
fn put_letters(out: &mut [u8], mut at: usize, c: Request) -> usize
    requires { at + length (letters c) ≤ length out.old }
    ensures { Written out.old at (letters c) result out.new }
{
    for f in columns(c) {
        at = put_byte(out, at, letter_of(f));
    }
    put_byte(out, at, b'\n')
}

// The line of a completed request, for which there is room.
fn put_ok(out: &mut [u8], c: Request) -> usize
    requires { length (ok_line c) ≤ length out.old }
    ensures { Written out.old 0 (ok_line c) result out.new }
{
    let mut at = put_slice(out, 0, b"ok ");
    for f in columns(c) {
        at = put_figure(out, at, f);
    }
    put_letters(out, at, c)
}

// How many bytes a completed request's line has: 9 beside its figures and the space after each.
fn ok_length(c: Request) -> usize
    ensures { result ≡ length (ok_line c) }
{
    let mut n = 9;
    for f in columns(c) {
        n += digits(f.size()) + 1;
    }
    n
}

// The line of a completed request, or TooLong.
pub fn write_ok(out: &mut [u8], c: Request) -> Result<usize, Refusal>
    ensures { LentWritten out.old (ok_line c) result out.new }
{
    room(out.len(), ok_length(c))?;
    Ok(put_ok(out, c))
}

// The line of a number, for which there is room.
fn put_no(out: &mut [u8], n: u32) -> usize
    requires { length (number_line n) ≤ length out.old }
    ensures { Written out.old 0 (number_line n) result out.new }
{
    let at = put_slice(out, 0, b"no ");
    put_ended(out, at, n as u64, b'\n')
}

// The line of a refusal or a number, or TooLong.
pub fn write_no<N: Numbered>(out: &mut [u8], refusal: N) -> Result<usize, Refusal>
    ensures { LentWritten out.old (number_line (N.number refusal)) result out.new }
{
    let n = refusal.number();
    room(out.len(), digits(n as u64) + 4)?;
    Ok(put_no(out, n))
}
