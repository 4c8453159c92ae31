// The rupture distance from the distance to its projection, RJB, and the azimuth: the equations of
// Kaklamanos, Baise and Boore (2011). Each function equals a definition of crate geometry, whose proofs/
// say how near that lies to the equations themselves.
#![tactic(auto)]

mod angles;
mod plan;
mod section;

ghost use Rattle.std.specs.Prelude.{◌≡◌, ◌+◌, ◌*◌, ◌≤◌, ◌<◌};
ghost use Rattle.geometry.specs.Geometry.{ceil_root, on_hanging_wall, RuptureInRange};
ghost use Rattle.geometry.specs.Fixed.{hanging_wall_fixed, rupture_distance};

pub use angles::Angle;
use plan::Plan;
use reckon::whole_root;
pub use section::Section;

// The smallest whole number whose square is not below n.
#[tactic(auto, unfolding(geometry::specs::Geometry::ceil_root))]
fn ceil_root(n: u64) -> u64
    requires { n ≤ 1000000000000 }
    ensures { result ≡ ceil_root n }
{
    let r = whole_root(n);
    if n <= r * r { r } else { r + 1 }
}

// A vertical fault has no hanging wall; azimuths of 0 and 180 are in line with the top edge, and
// negative ones on the footwall.
#[tactic(auto, unfolding(geometry::specs::Geometry::on_hanging_wall))]
fn on_hanging_wall(dip: u64, azimuth: i64) -> bool
    ensures { result ≡ on_hanging_wall dip azimuth }
{
    dip < 90 && 0 < azimuth && azimuth < 180
}

// RRUP on the hanging wall, rounded up.
#[tactic(auto, unfolding(geometry::specs::Fixed::hanging_wall_fixed, geometry::specs::Fixed::from_plan_fixed))]
fn hanging_wall(dip: u64, azimuth: u64, w: u64, ztor: u64, rjb: u64) -> u64
    requires { RuptureInRange dip w ztor rjb × (dip < 90) × (1 ≤ azimuth) × (azimuth ≤ 179) }
    ensures { result ≡ hanging_wall_fixed dip azimuth w ztor rjb }
{
    let section = Section {
        dip: Angle::of(dip),
        w,
        ztor,
    };
    let plan = Plan {
        h: section.projected_width(),
        rjb,
    };
    section.from_plan(plan.site(azimuth))
}

// RRUP in whole metres, never below the root of RJB² + ZTOR². A metre less it is never above that of
// RJB² + (ZTOR + W)², so that no given RRUP that was reported is refused as too long.
pub fn rupture_distance(dip: u64, azimuth: i64, w: u64, ztor: u64, rjb: u64) -> u64
    requires { RuptureInRange dip w ztor rjb }
    ensures { result ≡ rupture_distance dip azimuth w ztor rjb }
{
    let least = ceil_root(rjb * rjb + ztor * ztor);
    if on_hanging_wall(dip, azimuth) {
        let deepest = ztor + w;
        let most = ceil_root(rjb * rjb + deepest * deepest);
        let d = hanging_wall(dip, azimuth as u64, w, ztor, rjb);
        return d.clamp(least, most);
    }
    least
}
