// A request completed: every figure that was left blank estimated by its one published rule, or the
// first refusal in document 01's order, stage by stage.
#![tactic(auto)]

ghost use Rattle.std.specs.Prelude.{◌≡◌};
ghost use Rattle.outcome.specs.Figures.{rrup, z25};
ghost use Rattle.outcome.specs.Answers.{completed, completion_of};

use outcome::Sourced;
use path_stage::complete_path;
use refusals::Refusal;
use request::{Field, Request};
use site_stage::complete_site;
use source_stage::complete_source;

// The request with its blank figures completed.
#[tactic(auto, unfolding(outcome::specs::Answers::completed, outcome::specs::Stages::source_figures))]
fn gathered(s: Sourced, distance: Field, depth: Field) -> Request
    requires { (distance ≡ rrup s.request) × (depth ≡ z25 s.request) }
    ensures { result ≡ completed s.request }
{
    let source = s.figures;
    Request {
        dip: source.dip,
        w: source.w,
        zhyp: source.zhyp,
        ztor: source.ztor,
        rrup: distance,
        z25: depth,
        ..s.request
    }
}

// Completes any request. It asks for nothing: each of the thirteen fields may hold any i64, of any origin.
// One that is marked as ours is refused, so that no estimate passes for a figure of the caller's.
pub fn complete(r: Request) -> Result<Request, Refusal>
    ensures { result ≡ completion_of r }
{
    if r.is_marked() {
        return Err(Refusal::Marked);
    }
    let s = complete_source(r)?;
    let rrup = complete_path(s)?;
    let z25 = complete_site(s)?;
    Ok(gathered(s, rrup, z25))
}
