// Sine and cosine of an angle, in units of 10^-9.
ghost use Rattle.std.specs.Prelude.{◌≡◌, ◌≤◌};
ghost use Rattle.fixed.specs.Fixed.{E9};
ghost use Rattle.geometry.specs.Fixed.{sin9, cos9};

use reckon::{cos_deg, sin_deg};

// The sine of an angle from 0 to 180 degrees and the size of its cosine.
#[derive(Clone, Copy)]
pub struct Angle {
    pub sin: u64,
    pub cos: u64,
    ghost sin_most: { sin ≤ E9 },
    ghost cos_most: { cos ≤ E9 },
}

impl Angle {
    // The angle of so many degrees.
    #[tactic(auto, unfolding(geometry::specs::Fixed::sin9, geometry::specs::Fixed::cos9))]
    pub fn of(degrees: u64) -> Self
        requires { degrees ≤ 180 }
        ensures { (result.sin ≡ sin9 degrees) × (result.cos ≡ cos9 degrees) }
    {
        Angle {
            sin: sin_deg(degrees),
            cos: cos_deg(degrees),
        }
    }
}
