// Bytes cut behind the last of a kind, such as a list behind its last line.
#![tactic(auto)]

ghost use Rattle.std.specs.Prelude.{◌≡◌, ◌≤◌, length};
ghost use Rattle.cuts.specs.Cuts.{up_to};

// How many bytes stand up to the last that is b, itself counted: 0 where none is.
pub fn up_to_last(s: &[u8], b: u8) -> usize
    ensures { (result ≡ up_to b s.now) × (result ≤ length s.now) }
{
    match s.iter().rposition(|c| *c == b) {
        Some(i) => i + 1,
        None => 0,
    }
}
