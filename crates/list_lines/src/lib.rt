// A list of request lines, each with its LF, looked through line by line.
#![tactic(auto)]

mod ends;

ghost use Rattle.std.specs.Prelude.{◌≡◌, length};
ghost use Rattle.list_lines.specs.ListLines.{lines_of, surveyed};

pub use ends::line_end;
use text::read_line;

// How many lines a list has, if all are well-formed. Any bytes, of any length.
pub fn survey_lines(s: &[u8]) -> Option<usize>
    ensures { result ≡ surveyed (lines_of s.now) (length (lines_of s.now)) }
{
    let mut n = 0;
    let mut at = 0;
    // By places: what `line_end` says of them may not change, and the same call finds them in `put_records`.
    while at < s.len() {
        let e = line_end(s, at);
        if e == s.len() {
            return None;
        }
        read_line(&s[at..e])?;
        n += 1;
        at = e + 1;
    }
    Some(n)
}
