// The source of the shaking: magnitude, style, dip, width and depth of the rupture.
#![tactic(auto)]

ghost use Rattle.std.specs.Prelude.{◌≡◌, ◌/◌, ◌≤◌, None, IfOk};
ghost use Rattle.std.specs.Result.{result_err};
ghost use Rattle.request.specs.Fields.{size_of};
ghost use Rattle.rules.specs.Rules.{dip_of};
ghost use Rattle.rules.specs.Fixed.{width_fixed, top_fixed};
ghost use Rattle.outcome.specs.Figures.{or_estimate, tenths_of};
ghost use Rattle.refusals.specs.Order.{first};
ghost use Rattle.outcome.specs.Refusals.{source_given, source_rows};
ghost use Rattle.outcome.specs.Stages.{source_figures};

use estimate::{dip_estimate, hypocentre_estimate, top_estimate, width_estimate};
use outcome::{Source, Sourced, estimated_figure};
use refusals::Refusal;
use request::{Field, Request, Style};

// The first refusal that reads a given figure of the source, or Vs30, which stands among them.
#[tactic(auto, unfolding(refusals::specs::Order::first, outcome::specs::Refusals::source_given, outcome::specs::Figures::style))]
fn test_source(r: Request) -> Result<(), Refusal>
    ensures { result_err result ≡ first (source_given r) }
{
    if !r.rake.is_within(-180, 180) {
        return Err(Refusal::Rake);
    }
    if !r.style().allows(r.m) {
        return Err(Refusal::Magnitude);
    }
    if !r.vs30.is_within(150, 1500) {
        return Err(Refusal::Vs30);
    }
    if !r.dip.is_allowed(15, 90) {
        return Err(Refusal::Dip);
    }
    if !r.w.is_allowed(1, 100000) {
        return Err(Refusal::Width);
    }
    if !r.zhyp.is_allowed(0, 30000) {
        return Err(Refusal::Hypocentre);
    }
    if !r.ztor.is_allowed(0, 15000) {
        return Err(Refusal::Top);
    }
    Ok(())
}

// Each function that completes a figure has its own test for blank: one over the estimate as a closure would
// have each call state range and answer of its closure once more, and so be no plainer.

#[tactic(auto, using(rules::proofs::Ranges::dip_of_range), unfolding(outcome::specs::Figures::or_estimate))]
fn complete_dip(f: Field, s: Style) -> Field
    ensures { result ≡ or_estimate f (dip_of s) }
{
    if f.is_blank() {
        estimated_figure(dip_estimate(s))
    } else {
        f
    }
}

#[tactic(auto, unfolding(outcome::specs::Figures::or_estimate))]
fn complete_width(f: Field, s: Style, m: u64) -> Field
    requires { (400 ≤ m) × (m ≤ 850) }
    ensures { result ≡ or_estimate f (width_fixed s m) }
{
    if f.is_blank() {
        estimated_figure(width_estimate(s, m))
    } else {
        f
    }
}

// The depth of the hypocentre in tenths of a metre, as the top of the rupture reads it.
#[tactic(auto, unfolding(outcome::specs::Figures::tenths_of))]
fn hypocentre_tenths(f: Field, s: Style, m: u64) -> u64
    requires { (400 ≤ m) × (m ≤ 850) × (size_of f ≤ 30000) }
    ensures { result ≡ tenths_of f s m }
{
    if f.is_blank() {
        hypocentre_estimate(s, m)
    } else {
        10 * f.size()
    }
}

// The same in whole metres, the tenth cut off where it is estimated.
#[tactic(auto, unfolding(outcome::specs::Figures::or_estimate))]
fn complete_hypocentre(f: Field, tenths: u64) -> Field
    ensures { result ≡ or_estimate f (tenths / 10) }
{
    if f.is_blank() {
        estimated_figure(tenths / 10)
    } else {
        f
    }
}

#[tactic(auto, unfolding(outcome::specs::Figures::or_estimate))]
fn complete_top(f: Field, tenths: u64, w: u64, dip: u64) -> Field
    requires { (tenths ≤ 300000) × (w ≤ 100000) × (dip ≤ 90) }
    ensures { result ≡ or_estimate f (top_fixed tenths w dip) }
{
    if f.is_blank() {
        estimated_figure(top_estimate(tenths, w, dip))
    } else {
        f
    }
}

// The figures of a source whose given ones are in their ranges.
fn known_source(r: Request) -> Source
    requires { first (source_given r) ≡ None }
    ensures { result ≡ source_figures r }
{
    let style = r.style();
    let m = r.m.size();
    let dip = complete_dip(r.dip, style);
    let w = complete_width(r.w, style, m);
    let tenths = hypocentre_tenths(r.zhyp, style, m);
    let zhyp = complete_hypocentre(r.zhyp, tenths);
    let ztor = complete_top(r.ztor, tenths, w.size(), dip.size());
    Source { dip, w, zhyp, ztor }
}

// The request with its source's figures, or the first refusal of the source.
#[tactic(auto, using(outcome::proofs::Staged::source_refused, outcome::proofs::Staged::source_deep, outcome::proofs::Staged::source_clear), unfolding(outcome::specs::Stages::source_figures))]
pub fn complete_source(r: Request) -> Result<Sourced, Refusal>
    ensures refused { result_err result ≡ first (source_rows r) }
    ensures known { IfOk result (λ s. s.request ≡ r) }
{
    test_source(r)?;
    let figures = known_source(r);
    if 15000 < figures.ztor.size() {
        return Err(Refusal::Top);
    }
    Ok(Sourced {
        request: r,
        figures,
    })
}
