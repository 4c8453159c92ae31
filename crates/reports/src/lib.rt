// Fine rows rounded for the report: a row with all its figures, or what a sheet shows of it. Each function
// equals a definition of model's specs/Fixed.
#![tactic(auto)]

ghost use Rattle.std.specs.Prelude.{◌≡◌, ℕ, ◌*◌, ◌^◌, ◌<◌, length, get_or};
ghost use Rattle.std.specs.Mem.{type_size};
ghost use Rattle.std.proofs.Common.{lit<};
ghost use Rattle.tables.specs.Tables.{measures};
ghost use Rattle.model.specs.declared.Row.{Row};
ghost use Rattle.model.specs.Accuracy.{InRange};
ghost use Rattle.model.specs.Fixed.{report, row_fixed, no_fine, FineInRange};
ghost use Rattle.model.specs.Rows.{shown_of};

use measures::{fine_at, fine_rows_of};
use model::{Fine, Row, Scenario, Shown};
use reckon::{exp_fixed, round_div};
use sigmas::{arbitrary_of, intra_of, total_of};
use std::array;
use tables::{MEASURES, deviations_at};

// A row, or the part of it that a sheet shows.
pub trait Reported: Copy {
    // what of a row it is
    ghost told: { Row → Self };

    // That of a measure's fine row. What is known of the measure only spares roots.
    fn report(i: usize, f: Fine) -> Self
        requires { (i < measures) × FineInRange f }
        ensures { result ≡ told (report f) };

    // One for each measure takes fewer than 2^63 bytes.
    ghost fits: { measures * type_size Self.row < 2 ^ 63 };
}

// One sigma, with one root.
impl Reported for Shown {
    ghost told = { shown_of };

    ghost fits = { lit< tt };

    #[tactic(auto, unfolding(model::specs::Rows::shown_of, model::specs::Fixed::report))]
    fn report(i: usize, f: Fine) -> Self {
        Self {
            ln: round_div(f.ln, 1_000),
            median: exp_fixed(f.ln).max(1),
            sigma: total_of(i, deviations_at(i), f.total),
        }
    }
}

// What is shown, and the other three sigmas.
impl Reported for Row {
    ghost told = { λ r. r };

    ghost fits = { lit< tt };

    #[tactic(auto, unfolding(model::specs::Rows::shown_of, model::specs::Fixed::report))]
    fn report(i: usize, f: Fine) -> Self {
        let Shown { ln, median, sigma } = Shown::report(i, f);
        let d = deviations_at(i);
        Self {
            ln,
            median,
            intra: intra_of(d, f.intra),
            inter: f.t * 1_000,
            total: sigma,
            arbitrary: arbitrary_of(i, d, f.arbitrary),
        }
    }
}

// The row of one measure, or what is shown of it.
#[tactic(auto, using(model::proofs::Demand::fine_in_range), unfolding(model::specs::Fixed::row_fixed))]
pub fn row_at<T: Reported>(i: usize, x: Scenario) -> T
    requires { (i < measures) × InRange x }
    ensures { result ≡ T.told (row_fixed i x) }
{
    T::report(i, fine_at(i, x))
}

// Those of all measures of a request.
#[tactic(auto, using(model::proofs::Demand::fine_in_range), unfolding(model::specs::Fixed::row_fixed))]
pub fn rows_of<T: Reported>(x: Scenario) -> [T; MEASURES]
    requires { InRange x }
    ensures { (length result ≡ measures) × ((k : ℕ) (d : T) → k < measures → get_or result k d ≡ T.told (row_fixed k x)) }
{
    let fine = fine_rows_of(x);
    array::from_fn(
        |k: usize| -> T
            requires { (k < measures) × FineInRange (get_or fine k no_fine) }
            ensures { result ≡ T.told (report (get_or fine k no_fine)) }
        { T::report(k, fine[k]) },
    )
}
