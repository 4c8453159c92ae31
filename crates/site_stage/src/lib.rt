// The site: the depth Z2.5 of the basin below it.
#![tactic(auto)]

ghost use Rattle.std.specs.Prelude.{◌≡◌, ◌≤◌, None};
ghost use Rattle.std.specs.Result.{result_err};
ghost use Rattle.request.specs.Fields.{size_of};
ghost use Rattle.outcome.specs.Figures.{basin_of, z25};
ghost use Rattle.refusals.specs.Order.{first};
ghost use Rattle.outcome.specs.Refusals.{site_given};
ghost use Rattle.outcome.specs.Stages.{site_answer_of};

use estimate::{basin_from_vs30, basin_from_z10, basin_from_z15};
use outcome::{Sourced, estimated_figure};
use refusals::Refusal;
use request::{Field, Request};

// The refusal that reads a given depth of the site.
#[tactic(auto, unfolding(refusals::specs::Order::first, outcome::specs::Refusals::site_given))]
fn test_site(r: Request) -> Result<(), Refusal>
    ensures { result_err result ≡ first (site_given r) }
{
    if !r.z10.is_allowed(0, 10000) {
        return Err(Refusal::Basin);
    }
    if !r.z15.is_allowed(0, 10000) {
        return Err(Refusal::Basin);
    }
    if !r.z25.is_allowed(0, 10000) {
        return Err(Refusal::Basin);
    }
    Ok(())
}

// The estimate of Z2.5: from Z1.5 if that is given, else from Z1.0 if that is, else from Vs30.
#[tactic(auto, unfolding(outcome::specs::Figures::basin_of))]
fn basin_estimate(z15: Field, z10: Field, vs30: u64) -> u64
    requires { (size_of z15 ≤ 10000) × (size_of z10 ≤ 10000) × (150 ≤ vs30) × (vs30 ≤ 1500) }
    ensures { result ≡ basin_of z15 z10 vs30 }
{
    if z15.is_given() {
        basin_from_z15(z15.size())
    } else if z10.is_given() {
        basin_from_z10(z10.size())
    } else {
        basin_from_vs30(vs30)
    }
}

// Z2.5 of a site whose given depths are in their ranges.
fn known_site(s: Sourced) -> Field
    requires { first (site_given s.request) ≡ None }
    ensures { result ≡ z25 s.request }
{
    let r = s.request;
    if r.z25.is_blank() {
        estimated_figure(basin_estimate(r.z15, r.z10, r.vs30.size()))
    } else {
        r.z25
    }
}

// Z2.5, or the refusal of the basin.
pub fn complete_site(s: Sourced) -> Result<Field, Refusal>
    ensures { result ≡ site_answer_of s.request }
{
    test_site(s.request)?;
    let z25 = known_site(s);
    if 10000 < z25.size() {
        return Err(Refusal::Basin);
    }
    Ok(z25)
}
