// The fine rows of the 24 measures, reckoned: from a request's completed figures to ln medians and
// variances in units of 10^-9. Each function equals a definition of model's specs/Fixed, of which model's
// proofs/ say how near it lies to the exact value.
#![tactic(auto)]

ghost use Rattle.std.specs.Prelude.{◌≡◌, ℕ, ◌<◌, length, get_or};
ghost use Rattle.tables.specs.Tables.{measures, PGA};
ghost use Rattle.model.specs.Accuracy.{InRange};
ghost use Rattle.model.specs.Fixed.{rock_pga_fixed, ln_median_at_fixed, own_fixed, fine_fixed, no_fine};

use factors::factors_of;
use model::{Fine, Scenario};
use short_periods::{is_short, not_below_pga};
use sigmas::{intra_variance, squared};
use site::{OnSoil, Rock, rock_of};
use tables::{MEASURES, PGA, deviations_at};
use terms::Measure;

// The ln median of a measure by itself, in units of 10^-9.
fn ln_own(m: &OnSoil) -> i64
    ensures { let x = m.now.measure.f.now.x in result ≡ ln_median_at_fixed m.now.measure.c x x.vs30 (rock_pga_fixed x) }
{
    m.measure.ln_sum(m.f_site())
}

// The fine row of a measure by itself.
fn own_of(m: &OnSoil) -> Fine
    ensures { result ≡ own_fixed m.now.measure.i m.now.measure.f.now.x }
{
    let d = deviations_at(m.measure.i);
    let intra = intra_variance(m.measure.i, d, m.alpha());
    let total = intra + squared(d.t);
    let arbitrary = total + squared(d.sC);
    Fine {
        ln: ln_own(m),
        intra,
        t: u64::from(d.t),
        total,
        arbitrary,
    }
}

// The same, its soil worked out for it alone. Called twice and never inlined: the controller's stack then holds
// one such soil at a time.
#[inline(never)]
fn own_at(m: &Measure, rock: &Rock) -> Fine
    requires { rock.now.pga ≡ rock_pga_fixed m.now.f.now.x }
    ensures { result ≡ own_fixed m.now.i m.now.f.now.x }
{
    own_of(&OnSoil::of(*m, rock))
}

// The fine row of one measure. PGA's path comes first, since A1100 needs it; PGA's own row last, where the
// period is short.
pub fn fine_at(i: usize, x: Scenario) -> Fine
    requires { (i < measures) × InRange x }
    ensures { result ≡ fine_fixed i x }
{
    let f = factors_of(x);
    let pga = Measure::at(PGA, &f);
    let m = Measure::at(i, &f);
    let rock = rock_of(&pga);
    let own = own_at(&m, &rock);
    let short = is_short(i);
    if !short {
        return own;
    }
    not_below_pga(i, own, own_at(&pga, &rock))
}

// The fine row of the next measure, which is then the one at hand, from PGA's own. One function for the
// measures on both sides of PGA, so that no test for PGA stands before a row of Table 2 is read.
fn next_row(m: &mut OnSoil, k: usize, rock: &Rock, pga: Fine) -> Fine
    requires { (k < measures) × (rock.now.pga ≡ rock_pga_fixed m.old.measure.f.now.x) × (pga ≡ own_fixed PGA m.old.measure.f.now.x) }
    ensures { (result ≡ fine_fixed k m.old.measure.f.now.x) × (m.new.measure.f.now.x ≡ m.old.measure.f.now.x) }
{
    *m = m.next(k, rock);
    not_below_pga(k, own_of(m), pga)
}

// The fine rows of all measures. PGA's comes first, likewise; from there on measures that are alike in c6
// or k1 follow one another.
pub fn fine_rows_of(x: Scenario) -> [Fine; MEASURES]
    requires { InRange x }
    ensures { (length result ≡ measures) × ((k : ℕ) → k < measures → get_or result k no_fine ≡ fine_fixed k x) }
{
    let f = factors_of(x);
    let first = Measure::at(PGA, &f);
    let rock = rock_of(&first);
    let mut m = OnSoil::of(first, &rock);
    let pga = own_of(&m);
    let mut rows = [pga; MEASURES];
    for k in 0..PGA {
        rows[k] = next_row(&mut m, k, &rock, pga);
    }
    for k in PGA + 1..MEASURES {
        rows[k] = next_row(&mut m, k, &rock, pga);
    }
    rows
}
