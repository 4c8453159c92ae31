// One field of a line, read from its own bytes.
ghost use Rattle.std.specs.Prelude.{◌≡◌};
ghost use Rattle.text.specs.Grammar.{unsigned_of, signed_of, field_of};

use numerals::plain_number;
use request::Field;

// A number: one to six digits with no leading zero.
#[tactic(auto, using(crate::proofs::NumberLaws::six_digits, crate::proofs::NumberLaws::seven_digits))]
fn read_number(s: &[u8]) -> Option<u64>
    ensures { result ≡ unsigned_of s.now }
{
    if 6 < s.len() {
        return None;
    }
    plain_number(s)
}

// A number, after a minus sign where the field may have one. There is no "-0".
#[tactic(auto, using(crate::proofs::NumberLaws::number_lt, crate::proofs::FigureLaws::negative_read), unfolding(crate::specs::Grammar::signed_of, crate::specs::Grammar::negative))]
fn read_signed(s: &[u8], signed: bool) -> Option<i64>
    ensures { result ≡ signed_of signed s.now }
{
    let [b'-', digits @ ..] = s else {
        return Some(read_number(s)? as i64);
    };
    if !signed {
        return None;
    }
    let n = read_number(digits)?;
    if n == 0 {
        return None;
    }
    Some(-(n as i64))
}

// One field: one "-" for blank, or a figure. A "~" directly before the figure says that it was inferred,
// and it was measured where none stands there. No text says that a figure was estimated.
#[tactic(auto, unfolding(crate::specs::Grammar::field_of))]
pub fn read_field(s: &[u8], signed: bool) -> Option<Field>
    ensures { result ≡ field_of signed s.now }
{
    match s {
        [b'-'] => Some(Field::Blank),
        [b'~', figure @ ..] => read_signed(figure, signed).map(Field::Inferred),
        _ => read_signed(s, signed).map(Field::Measured),
    }
}
