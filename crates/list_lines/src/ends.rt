// Where a line ends.
ghost use Rattle.std.specs.Prelude.{◌≡◌, ◌==◌, ◌+◌, ◌≤◌, length, drop, position};
ghost use Rattle.std.specs.List.{position_or_len};
ghost use Rattle.numerals.specs.Render.{lf};

// The place of the first LF, if there is one.
fn first_lf(s: &[u8]) -> Option<usize>
    ensures { result ≡ position (λ c. c == lf) s.now }
{
    s.iter().position(|c| *c == b'\n')
}

// The place of the first LF from `at` on, or the length.
pub fn line_end(s: &[u8], at: usize) -> usize
    requires { at ≤ length s.now }
    ensures { (result ≡ at + position_or_len (λ c. c == lf) (drop at s.now)) × (result ≤ length s.now) }
{
    match first_lf(&s[at..]) {
        Some(i) => at + i,
        None => s.len(),
    }
}
