// At short periods no median is below PGA's: where PSA < PGA and T ≤ 0.25 s, 003 has PSA set equal to PGA.
#![tactic(auto)]

ghost use Rattle.std.specs.Prelude.{◌≡◌};
ghost use Rattle.model.specs.Equations.{is_short};
ghost use Rattle.model.specs.Fixed.{raised};

use model::Fine;

// How many measures, from the first on, have a period of at most 0.25 s.
const SHORT: usize = 9;

// Whether a measure has such a period.
#[tactic(auto, using(model::proofs::ShortPeriods::short_are))]
pub fn is_short(i: usize) -> bool
    ensures { result ≡ is_short i }
{
    i < SHORT
}

// The fine row of a measure, from its own and PGA's. The period keeps its own variances.
#[tactic(auto, unfolding(model::specs::Fixed::raised))]
pub fn not_below_pga(i: usize, own: Fine, pga: Fine) -> Fine
    ensures { result ≡ raised i own pga }
{
    if is_short(i) {
        return Fine {
            ln: own.ln.max(pga.ln),
            ..own
        };
    }
    own
}
