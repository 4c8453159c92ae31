// Where the site lies on the plan: RX across the strike and RY along it. The rupture covers a strip
// of width h there. Lengths stand in tenths of a millimetre, RJB in metres.
ghost use Rattle.std.specs.Prelude.{◌≡◌, ◌+◌, ◌*◌, ◌≤◌, ◌<◌};
ghost use Rattle.fixed.specs.Fixed.{E9};
ghost use Rattle.geometry.specs.Fixed.{from_top_fixed, place_fixed, site_fixed};

use crate::angles::Angle;
use geometry::Place;
use reckon::{E9, whole_root};

// The width h of the strip and the site's distance from it, RJB.
#[derive(Clone, Copy)]
pub struct Plan {
    pub h: u64,
    pub rjb: u64,
    ghost h_most: { h ≤ E9 },
    ghost rjb_most: { rjb ≤ 200000 },
}

impl Plan {
    // The bracket of equation 8: how far the site lies from the end of the top edge.
    fn from_top(self, azimuth: Angle) -> u64
        requires { self.h * azimuth.cos + 10 * E9 < 10000 * self.rjb * azimuth.sin }
        ensures { (result ≡ from_top_fixed azimuth.sin azimuth.cos self.h (10000 * self.rjb)) × (result ≤ 3 * E9) }
    {
        let rjb = 10_000 * self.rjb;
        let g = self.h * azimuth.cos / E9;
        whole_root(rjb * rjb - g * g) + self.h * azimuth.sin / E9
    }

    // RX and RY at an azimuth that is not 90: equation 7 beside the strip, equation 8 beyond it, and
    // equation 20. A millimetre is added to the test, so that the rounding of its sides is no matter.
    fn rx_ry(self, azimuth: Angle) -> Place
        requires { E9 ≤ 58 * azimuth.cos }
        ensures { (result ≡ place_fixed azimuth.sin azimuth.cos self.h (10000 * self.rjb)) × (result.x ≤ 3 * E9) × (result.y ≤ 3 * E9) }
    {
        let Angle { sin, cos } = azimuth;
        let rjb = 10_000 * self.rjb;
        if rjb * sin <= self.h * cos + 10 * E9 {
            return Place {
                x: rjb * sin / cos,
                y: rjb,
            };
        }
        let d = self.from_top(azimuth);
        Place {
            x: d * sin / E9,
            y: d * cos / E9,
        }
    }

    // RX and RY from the azimuth in degrees; at 90 degrees equations 9 and 18.
    #[tactic(auto, unfolding(geometry::specs::Fixed::site_fixed))]
    pub fn site(self, azimuth: u64) -> Place
        requires { (1 ≤ azimuth) × (azimuth ≤ 179) }
        ensures { (result ≡ site_fixed azimuth self.h self.rjb) × (result.x ≤ 3 * E9) × (result.y ≤ 3 * E9) }
    {
        if azimuth == 90 {
            return Place {
                x: 10_000 * self.rjb + self.h,
                y: 0,
            };
        }
        self.rx_ry(Angle::of(azimuth))
    }
}
