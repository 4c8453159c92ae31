// A request as a record.
ghost use Rattle.std.specs.Prelude.{◌≡◌, ◌+◌, ◌≤◌, length};
ghost use Rattle.lent.specs.Lent.{Written};
ghost use Rattle.records.specs.Records.{lowest, word_of, number_of, origin_of, record_size, record_of};

use crate::numbers::put_long;
use fields::fields_of;
use lent::put_byte;
use request::{Field, Request};

// How many numbers four bytes hold.
const WORDS: u64 = 4_294_967_296;

// The lowest 32-bit signed number, as it stands in four bytes.
pub const LOWEST: u64 = 2_147_483_648;

// A signed number as it stands in four bytes.
#[tactic(auto, unfolding(crate::specs::Records::word_of))]
fn word_of(v: i64) -> u64
    ensures { result ≡ word_of v }
{
    let n = v.unsigned_abs();
    if v < 0 { WORDS.saturating_sub(n) } else { n }
}

// The number of a field.
#[tactic(auto, unfolding(crate::specs::Records::number_of))]
fn number_of(f: Field) -> u64
    ensures { result ≡ number_of f }
{
    match f {
        // Not one arm: an or-pattern that binds got no proof.
        Field::Measured(v) => word_of(v),
        Field::Inferred(v) => word_of(v),
        Field::Estimated(v) => word_of(v),
        Field::Blank => LOWEST,
    }
}

// The number of its origin. `From`, and `TryFrom` for `given_as`, would be no plainer: neither says that the
// origin is meant.
#[tactic(auto, unfolding(crate::specs::Records::origin_of))]
fn origin_of(f: Field) -> u8
    ensures { result ≡ origin_of f }
{
    match f {
        Field::Measured(_) => 0,
        Field::Inferred(_) => 1,
        Field::Estimated(_) => 2,
        Field::Blank => 3,
    }
}

// The numbers of all fields, then the origins.
pub fn put_record(b: &mut [u8], at: usize, r: Request) -> usize
    requires { at + record_size ≤ length b.old }
    ensures { Written b.old at (record_of r) result b.new }
{
    let f = fields_of(r);
    let mut p = at;
    for field in &f {
        p = put_long(b, p, number_of(*field));
    }
    for field in &f {
        p = put_byte(b, p, origin_of(*field));
    }
    p
}
