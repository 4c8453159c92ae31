// A number that stands as decimal digits in bytes, read.
ghost use Rattle.std.specs.Prelude.{◌≡◌, ◌+◌, ◌-◌, ◌*◌, ◌≤◌, cond};
ghost use Rattle.std.specs.Option.{option_map};
ghost use Rattle.numerals.specs.Render.{digit0};
ghost use Rattle.numerals.specs.Plain.{is_digit, largest, capped, digits_of, plain_of};

// 10^18, as which every larger number stands: beyond all that is asked for.
const LARGEST: u64 = 1_000_000_000_000_000_000;

// The number of the digits of n and one more.
#[tactic(auto, unfolding(crate::specs::Plain::is_digit))]
fn with_digit(n: u64, c: u8) -> Option<u64>
    requires { n ≤ largest }
    ensures { result ≡ cond (is_digit c) (Some (capped (n * 10 + (c - digit0)))) None }
{
    match c {
        b'0'..=b'9' => Some((n * 10 + u64::from(c - b'0')).min(LARGEST)),
        _ => None,
    }
}

// The number that digits stand for, however many.
#[tactic(auto, using(crate::proofs::PlainLaws::digit_read, crate::proofs::PlainLaws::no_digit, crate::proofs::PlainLaws::digits_end))]
fn read_digits(s: &[u8]) -> Option<u64>
    ensures { result ≡ option_map capped (digits_of 0 s.now) }
{
    let mut n = 0;
    for c in s {
        n = with_digit(n, *c)?;
    }
    Some(n)
}

// A plain number: one digit or more and nothing else, with no leading zero. Any bytes, of any length.
#[tactic(auto, unfolding(crate::specs::Plain::plain_of))]
pub fn plain_number(s: &[u8]) -> Option<u64>
    ensures { result ≡ plain_of s.now }
{
    match s {
        [] | [b'0', _, ..] => None,
        _ => read_digits(s),
    }
}
