// A record read.
ghost use Rattle.std.specs.Prelude.{◌≡◌, ◌+◌, ◌*◌, ◌<◌, ◌≤◌, length};
ghost use Rattle.fields.specs.Held.{held};
ghost use Rattle.records.specs.Records.{signed_in, given_as, field_in, fields, field_at, record_size, record_in};

use crate::numbers::long_at;
use crate::write::LOWEST;
use fields::FIELDS;
use request::{Field, Request};
use text::{request_of, signed_at};

// The signed number that stands in four bytes.
#[tactic(auto, unfolding(crate::specs::Records::signed_in))]
fn signed_in(n: u64) -> i64
    requires { n < 4294967296 }
    ensures { result ≡ signed_in n }
{
    i64::from((n as u32).cast_signed())
}

// Whether text could hold the number in a field, which may have a minus sign or not.
#[tactic(auto, unfolding(fields::specs::Held::held))]
fn is_held(signed: bool, v: i64) -> bool
    ensures { result ≡ held signed v }
{
    let low = if signed { -999_999 } else { 0 };
    low <= v && v <= 999_999
}

// A number that was given, by its origin.
#[tactic(auto, unfolding(crate::specs::Records::given_as))]
fn given_as(origin: u8, v: i64) -> Option<Field>
    ensures { result ≡ given_as origin v }
{
    match origin {
        0 => Some(Field::Measured(v)),
        1 => Some(Field::Inferred(v)),
        _ => None,
    }
}

// The field of a number and an origin.
#[tactic(auto, unfolding(crate::specs::Records::field_in))]
fn field_in(signed: bool, number: u64, origin: u8) -> Option<Field>
    requires { number < 4294967296 }
    ensures { result ≡ field_in signed number origin }
{
    if origin == 3 {
        return if number == LOWEST {
            Some(Field::Blank)
        } else {
            None
        };
    }
    let v = signed_in(number);
    if is_held(signed, v) {
        given_as(origin, v)
    } else {
        None
    }
}

// Field k of a record.
#[tactic(auto, unfolding(crate::specs::Records::field_at))]
fn field_at(s: &[u8], k: usize) -> Option<Field>
    requires { (record_size ≤ length s.now) × (k < fields) }
    ensures { result ≡ field_at s.now k }
{
    field_in(signed_at(k), long_at(s, 4 * k), s[4 * FIELDS + k])
}

// A record: its request, if all its fields are well-formed.
pub fn record_in(s: &[u8]) -> Option<Request>
    requires { record_size ≤ length s.now }
    ensures { result ≡ record_in s.now }
{
    let mut got = [Field::Blank; FIELDS];
    for k in 0..FIELDS {
        got[k] = field_at(s, k)?;
    }
    Some(request_of(got))
}
