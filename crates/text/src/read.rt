// A line, cut at its spaces into thirteen fields.
ghost use Rattle.std.specs.Prelude.{◌≡◌, ◌+◌, ◌<◌, length, take, drop, MatchOption};
ghost use Rattle.text.specs.Grammar.{space_at, signed_at, request_of, line_of};

use crate::figures::read_field;
use request::{Field, Request};

// The most bytes that a line has before its LF.
pub const LONGEST: usize = 115;

// The bytes before the first space and those behind it, if there is one.
fn cut(s: &[u8]) -> Option<(&[u8], &[u8])>
    ensures { let n = space_at s.now in
        MatchOption result (n ≡ length s.now)
        (λ p. (n < length s.now) × (p.0.now ≡ take n s.now) × (p.1.now ≡ drop (n + 1) s.now)) }
{
    let end = s.iter().position(|c| *c == b' ')?;
    Some((&s[..end], &s[end + 1..]))
}

// Whether a field, numbered from 0, may have a minus sign: rake and azimuth.
#[tactic(auto, unfolding(crate::specs::Grammar::signed_at))]
pub fn signed_at(k: usize) -> bool
    ensures { result ≡ signed_at k }
{
    k == 1 || k == 8
}

// The request of thirteen fields in their order.
#[tactic(auto, unfolding(crate::specs::Grammar::request_of))]
pub fn request_of(f: [Field; 13]) -> Request
    ensures { result ≡ request_of f }
{
    let [
        m,
        rake,
        vs30,
        dip,
        w,
        zhyp,
        ztor,
        rjb,
        azimuth,
        rrup,
        z10,
        z15,
        z25,
    ] = f;
    Request {
        m,
        rake,
        vs30,
        dip,
        w,
        zhyp,
        ztor,
        rjb,
        azimuth,
        rrup,
        z10,
        z15,
        z25,
    }
}

// A line without its LF: any bytes, of any length.
#[tactic(auto, using(crate::proofs::FieldLaws::too_long, crate::proofs::FieldLaws::no_space, crate::proofs::FieldLaws::no_field, crate::proofs::FieldLaws::no_last_field, crate::proofs::FieldLaws::last_field))]
pub fn read_line(s: &[u8]) -> Option<Request>
    ensures { result ≡ line_of s.now }
{
    if LONGEST < s.len() {
        return None;
    }
    let mut got = [Field::Blank; 13];
    let mut rest = s;
    for k in 0..12 {
        let (field, behind) = cut(rest)?;
        got[k] = read_field(field, signed_at(k))?;
        rest = behind;
    }
    got[12] = read_field(rest, signed_at(12))?;
    Some(request_of(got))
}
