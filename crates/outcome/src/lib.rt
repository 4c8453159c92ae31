// The figures of a request once it is completed, or its refusal: whole, and by the three stages in which
// the figures hang together, the source of the shaking, the path to the site, the site itself. What they
// are is in specs/, and proofs/ says what holds of them; the stages' crates and completion reckon them.
#![tactic(auto)]

ghost use Rattle.std.specs.Prelude.{◌≡◌, ◌<◌, None};
ghost use Rattle.refusals.specs.Order.{first};
ghost use Rattle.outcome.specs.Figures.{estimated};
ghost use Rattle.outcome.specs.Refusals.{source_rows};
ghost use Rattle.outcome.specs.Stages.{source_figures};

use request::{Field, Request};

// A figure that we estimate, marked as such.
pub fn estimated_figure(e: u64) -> Field
    requires { e < 9223372036854775808 }
    ensures { result ≡ estimated e }
{
    Field::Estimated(e as i64)
}

// The completed figures of the source.
#[derive(Clone, Copy)]
pub struct Source {
    pub dip: Field,
    pub w: Field,
    pub zhyp: Field,
    pub ztor: Field,
}

// A request whose source is not refused, with the completed figures of it.
#[derive(Clone, Copy)]
pub struct Sourced {
    pub request: Request,
    pub figures: Source,
    pub ghost completed: { figures ≡ source_figures request },
    pub ghost silent: { first (source_rows request) ≡ None },
}
