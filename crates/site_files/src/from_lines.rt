// Lines written as records.
ghost use Rattle.std.specs.Prelude.{◌+◌, ◌≤◌, length};
ghost use Rattle.lent.specs.Lent.{Written};
ghost use Rattle.list_lines.specs.ListLines.{lines_of, requests_in};
ghost use Rattle.site_files.specs.Format.{records_of};

use list_lines::line_end;
use records::put_record;
use text::read_line;

// The records of those lines of a list that are well-formed, for which there is room.
pub fn put_records(b: &mut [u8], first: usize, list: &[u8]) -> usize
    requires { first + length (records_of (requests_in (lines_of list.now))) ≤ length b.old }
    ensures { Written b.old first (records_of (requests_in (lines_of list.now))) result b.new }
{
    let mut p = first;
    let mut at = 0;
    // By places, as in `survey_lines`. Not one loop for both: a closure for the step would be no plainer.
    while at < list.len() {
        let e = line_end(list, at);
        if e == list.len() {
            return p;
        }
        if let Some(r) = read_line(&list[at..e]) {
            p = put_record(b, p, r);
        }
        at = e + 1;
    }
    p
}
