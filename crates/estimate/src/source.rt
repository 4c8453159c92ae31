// The source: dip, W, ZHYP and ZTOR. A magnitude stands in hundredths.
ghost use Rattle.std.specs.Prelude.{◌≡◌, ◌≤◌};
ghost use Rattle.rules.specs.Rules.{dip_of, hypocentre};
ghost use Rattle.rules.specs.Fixed.{log_width_fixed, width_fixed, top_fixed};

use reckon::{E9, E10, exp_fixed, sin_deg};
use request::Style;

// ln 10 in units of 10^-9.
const LN10: u64 = 2_302_585_092;

// The dip in degrees.
#[tactic(auto, unfolding(rules::specs::Rules::dip_of))]
pub fn dip_estimate(s: Style) -> u64
    ensures { result ≡ dip_of s }
{
    match s {
        Style::StrikeSlip => 90,
        Style::Reverse => 40,
        Style::Normal => 50,
    }
}

// log10 of W in m, in units of 10^-4.
#[tactic(auto, unfolding(rules::specs::Fixed::log_width_fixed))]
fn log_width(s: Style, m: u64) -> u64
    requires { m ≤ 850 }
    ensures { (result ≡ log_width_fixed s m) × (result ≤ 50000) }
{
    match s {
        Style::StrikeSlip => 22_400 + 27 * m,
        Style::Reverse => 13_900 + 41 * m,
        Style::Normal => 18_600 + 35 * m,
    }
}

// W in m (equation 2).
#[tactic(auto, unfolding(rules::specs::Fixed::width_fixed))]
pub fn width_estimate(s: Style, m: u64) -> u64
    requires { (400 ≤ m) × (m ≤ 850) }
    ensures { result ≡ width_fixed s m }
{
    let x = log_width(s, m) * LN10 / 10_000;
    exp_fixed(x as i64) / E10
}

// ZHYP in tenths of a metre (equation 4).
#[tactic(auto, unfolding(rules::specs::Rules::hypocentre))]
pub fn hypocentre_estimate(s: Style, m: u64) -> u64
    requires { (400 ≤ m) × (m ≤ 850) }
    ensures { result ≡ hypocentre s m }
{
    match s {
        Style::StrikeSlip => 56_300 + 68 * m,
        Style::Reverse | Style::Normal => 112_400 - 20 * m,
    }
}

// ZTOR in m: the larger of 0 and ZHYP - 0.6 W sin(dip), ZHYP in tenths of a metre (equation 3).
#[tactic(auto, unfolding(rules::specs::Fixed::top_fixed))]
pub fn top_estimate(zhyp: u64, w: u64, dip: u64) -> u64
    requires { (zhyp ≤ 300000) × (w ≤ 100000) × (dip ≤ 90) }
    ensures { result ≡ top_fixed zhyp w dip }
{
    (zhyp * E9).saturating_sub(6 * w * sin_deg(dip)) / E10
}
