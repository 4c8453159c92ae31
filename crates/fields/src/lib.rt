// The fields of a request one after the other.
#![tactic(auto)]

ghost use Rattle.std.specs.Prelude.{◌≡◌};
ghost use Rattle.fields.specs.Held.{fields_in};

use request::{Field, Request};

// How many fields a request has.
pub const FIELDS: usize = 13;

// The fields in their order. A function, since a conversion would have to stand with the type, which knows no order
// of text.
#[tactic(auto, unfolding(crate::specs::Held::fields_in))]
pub fn fields_of(r: Request) -> [Field; FIELDS]
    ensures { result ≡ fields_in r }
{
    [
        r.m, r.rake, r.vs30, r.dip, r.w, r.zhyp, r.ztor, r.rjb, r.azimuth, r.rrup, r.z10, r.z15,
        r.z25,
    ]
}
