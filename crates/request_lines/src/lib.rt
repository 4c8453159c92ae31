// A request written as a line of text, as `text` reads it, into lent bytes from a place on. Each function
// that writes returns the place after what it wrote, and leaves every other byte as it was.
#![tactic(auto)]

ghost use Rattle.std.specs.Prelude.{◌≡◌, ◌∷◌, [], ◌++◌, ◌+◌, ◌≤◌, length};
ghost use Rattle.lent.specs.Lent.{Written};
ghost use Rattle.numerals.specs.Render.{lf};
ghost use Rattle.request_lines.specs.RequestText.{field_text, line_text};

use fields::fields_of;
use lent::put_byte;
use numerals::{put_signed, width};
use request::{Field, Request};

// One field.
#[tactic(auto, using(lent::proofs::PutLaws::room_after), unfolding(crate::specs::RequestText::field_text))]
fn put_field(b: &mut [u8], at: usize, f: Field) -> usize
    requires { at + length (field_text f) ≤ length b.old }
    ensures { Written b.old at (field_text f) result b.new }
{
    match f {
        Field::Measured(v) => put_signed(b, at, v),
        Field::Inferred(v) => {
            let p = put_byte(b, at, b'~');
            put_signed(b, p, v)
        }
        Field::Estimated(_) => at,
        Field::Blank => put_byte(b, at, b'-'),
    }
}

// How many bytes put_field writes.
#[tactic(auto, unfolding(crate::specs::RequestText::field_text))]
fn field_length(f: Field) -> usize
    ensures { (result ≡ length (field_text f)) × (result ≤ 22) }
{
    match f {
        Field::Measured(v) => width(v),
        Field::Inferred(v) => width(v) + 1,
        Field::Estimated(_) => 0,
        Field::Blank => 1,
    }
}

// The line of a request and its LF.
pub fn put_line(b: &mut [u8], at: usize, r: Request) -> usize
    requires { at + length (line_text r ++ (lf ∷ [])) ≤ length b.old }
    ensures { Written b.old at (line_text r ++ (lf ∷ [])) result b.new }
{
    let fields = fields_of(r);
    let mut p = put_field(b, at, fields[0]);
    for f in &fields[1..] {
        p = put_byte(b, p, b' ');
        p = put_field(b, p, *f);
    }
    put_byte(b, p, b'\n')
}

// How many bytes put_line writes.
#[tactic(auto, using(crate::proofs::RestLaws::rest_length, crate::proofs::RestLaws::lf_length, crate::proofs::RestLaws::line_length))]
pub fn line_length(r: Request) -> usize
    ensures { (result ≡ length (line_text r ++ (lf ∷ []))) × (result ≤ 299) }
{
    let mut n = 0;
    for f in fields_of(r) {
        n += field_length(f) + 1;
    }
    n
}
