// The path from the rupture to the site: its length RRUP.
#![tactic(auto)]

ghost use Rattle.std.specs.Prelude.{◌≡◌, ◌≤◌, None};
ghost use Rattle.std.specs.Result.{result_err};
ghost use Rattle.request.specs.Fields.{size_of};
ghost use Rattle.outcome.specs.Figures.{dip, width, ztor, rrup};
ghost use Rattle.refusals.specs.Order.{first};
ghost use Rattle.outcome.specs.Refusals.{above_rupture, path_given, too_short, too_far};
ghost use Rattle.outcome.specs.Stages.{path_answer_of};

use outcome::{Sourced, estimated_figure};
use refusals::Refusal;
use request::{Field, Request};
use rupture::rupture_distance;

// Whether the site is above the rupture, whose completed dip is d: no distance follows from RJB there.
#[tactic(auto, unfolding(outcome::specs::Refusals::above_rupture))]
fn is_above_rupture(r: Request, d: u64) -> bool
    requires { d ≡ size_of (dip r) }
    ensures { result ≡ above_rupture r }
{
    r.rrup.is_blank() && d < 90 && r.rjb.is_within(0, 0) && r.azimuth.is_within(90, 90)
}

// The first refusal that reads a given figure of the path.
#[tactic(auto, unfolding(refusals::specs::Order::first, outcome::specs::Refusals::path_given))]
fn test_path(r: Request, d: u64) -> Result<(), Refusal>
    requires { d ≡ size_of (dip r) }
    ensures { result_err result ≡ first (path_given r) }
{
    if !r.rjb.is_within(0, 200000) {
        return Err(Refusal::Rjb);
    }
    if !r.azimuth.is_within(-180, 180) {
        return Err(Refusal::Azimuth);
    }
    if is_above_rupture(r, d) {
        return Err(Refusal::Above);
    }
    if !r.rrup.is_allowed(0, 200000) {
        return Err(Refusal::Rrup);
    }
    Ok(())
}

// Whether a given RRUP is too short, even one metre longer, to reach down to the rupture's top z.
#[tactic(auto, unfolding(outcome::specs::Refusals::too_short))]
fn is_too_short(r: Request, z: u64) -> bool
    requires { (z ≡ size_of (ztor r)) × (z ≤ 15000) × (size_of r.rjb ≤ 200000) × (size_of r.rrup ≤ 200000) }
    ensures { result ≡ too_short r }
{
    let d = r.rrup.size() + 1;
    let rjb = r.rjb.size();
    r.rrup.is_given() && d * d < rjb * rjb + z * z
}

// Whether a given RRUP is too long, even one metre shorter, for a rupture of width w whose top is at z.
#[tactic(auto, using(outcome::proofs::TooFar::one_unasked), unfolding(outcome::specs::Refusals::too_far))]
fn is_too_far(r: Request, w: u64, z: u64) -> bool
    requires { (w ≡ size_of (width r)) × (z ≡ size_of (ztor r)) × (w ≤ 100000) × (z ≤ 15000) × (size_of r.rjb ≤ 200000) × (size_of r.rrup ≤ 200000) }
    ensures { result ≡ too_far r }
{
    let d = r.rrup.size().saturating_sub(1);
    let rjb = r.rjb.size();
    let deepest = z + w;
    r.rrup.is_given() && rjb * rjb + deepest * deepest < d * d
}

// The length of a path whose given figures are in their ranges: RRUP as it stands, or its estimate.
fn known_length(s: Sourced) -> u64
    requires { first (path_given s.request) ≡ None }
    ensures { result ≡ size_of (rrup s.request) }
{
    let r = s.request;
    let source = s.figures;
    if r.rrup.is_blank() {
        rupture_distance(
            source.dip.size(),
            r.azimuth.value(),
            source.w.size(),
            source.ztor.size(),
            r.rjb.size(),
        )
    } else {
        r.rrup.size()
    }
}

// RRUP of a path whose length is d.
fn known_path(r: Request, d: u64) -> Field
    requires { (d ≡ size_of (rrup r)) × (d ≤ 200000) }
    ensures { result ≡ rrup r }
{
    if r.rrup.is_blank() {
        estimated_figure(d)
    } else {
        r.rrup
    }
}

// RRUP, or the first refusal of the path.
pub fn complete_path(s: Sourced) -> Result<Field, Refusal>
    ensures { result ≡ path_answer_of s.request }
{
    let r = s.request;
    let source = s.figures;
    test_path(r, source.dip.size())?;
    let d = known_length(s);
    if 200000 < d {
        return Err(Refusal::Rrup);
    }
    let z = source.ztor.size();
    if is_too_short(r, z) {
        return Err(Refusal::TooShort);
    }
    if is_too_far(r, source.w.size(), z) {
        return Err(Refusal::TooFar);
    }
    Ok(known_path(r, d))
}
