// RRUP from the site's place on the plan, whatever that place is. Turned by the dip, the site lies v
// off the plane of the rupture and e above its upper or beyond its lower edge; RY is across both.
ghost use Rattle.std.specs.Prelude.{◌≡◌, ◌+◌, ◌*◌, ◌/◌, ◌≤◌, ◌<◌};
ghost use Rattle.fixed.specs.Fixed.{E9};
ghost use Rattle.geometry.specs.Fixed.{projected_width_fixed, off_edges_fixed, rrup_fixed};

use crate::angles::Angle;
use geometry::Place;
use reckon::whole_root;

// What a length in tenths of a millimetre times a sine is divided by to be in millimetres.
const TO_MM: u64 = 10_000_000_000;

// The rupture's section: its dip, and W and ZTOR in metres.
#[derive(Clone, Copy)]
pub struct Section {
    pub dip: Angle,
    pub w: u64,
    pub ztor: u64,
    ghost w_most: { w ≤ 100000 },
    ghost ztor_most: { ztor ≤ 15000 },
}

impl Section {
    // h = W cos(dip), the width of the rupture's projection, in tenths of a millimetre.
    pub(crate) fn projected_width(self) -> u64
        ensures { (result ≡ projected_width_fixed self.w self.dip.cos) × (result ≤ E9) }
    {
        self.w * self.dip.cos / 100_000
    }

    // e in millimetres: up is ZTOR sin(dip), down is RX cos(dip), and the edges are W apart.
    #[tactic(auto, unfolding(geometry::specs::Fixed::off_edges_fixed))]
    fn off_edges(self, up: u64, down: u64) -> u64
        requires { (up ≤ 4000000000 * E9) × (down ≤ 4000000000 * E9) }
        ensures { (result ≡ off_edges_fixed up down self.w) × (result ≤ 400000000) }
    {
        if down < up {
            return (up - down) / TO_MM;
        }
        ((down - up) / TO_MM).saturating_sub(1000 * self.w)
    }

    // RRUP in millimetres; RX and RY in tenths of a millimetre.
    fn rrup(self, site: Place) -> u64
        requires { (site.x ≤ 3500000000) × (site.y ≤ 3500000000) }
        ensures { (result ≡ rrup_fixed self.dip.sin self.dip.cos self.w (10000 * self.ztor) site.x site.y) × (result ≤ E9) }
    {
        let Angle { sin, cos } = self.dip;
        let ztor = 10_000 * self.ztor;
        let v = (site.x * sin + ztor * cos) / TO_MM;
        let e = self.off_edges(ztor * sin, site.x * cos);
        let u = site.y / 10;
        whole_root(v * v + e * e + u * u)
    }

    // RRUP in metres, rounded up.
    pub fn from_plan(self, site: Place) -> u64
        requires { (site.x ≤ 3500000000) × (site.y ≤ 3500000000) }
        ensures { result ≡ (rrup_fixed self.dip.sin self.dip.cos self.w (10000 * self.ztor) site.x site.y + 999) / 1000 }
    {
        (self.rrup(site) + 999) / 1000
    }
}
