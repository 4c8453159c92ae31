// The 64-bit functions that every figure is made of: signed products and quotients, the root, the
// logarithm, the exponential, the sine and the cosine. Each equals a definition of crate fixed, the root
// one of exact, and fixed's proofs/ say how near that lies to the exact value. Unless it says otherwise
// a number stands in units of 10^-9.
#![tactic(auto)]

mod exp;
mod ln;
mod root;
mod signed;
mod sine;
mod units;

pub use exp::exp_fixed;
pub use ln::{ln_fixed, ln_narrow, ln_quotient};
pub use root::whole_root;
pub use signed::{mul_div, round_div};
pub use sine::{cos_deg, sin_deg};
pub use units::{E9, E10};
