// Records written as lines: counted first, so that a file is refused before a byte is written.
ghost use Rattle.std.specs.Prelude.{◌≡◌, ◌*◌, ◌≤◌, length};
ghost use Rattle.lent.specs.Lent.{Written};
ghost use Rattle.request_lines.specs.RequestText.{list_text};
ghost use Rattle.records.specs.Records.{record_size};
ghost use Rattle.list_lines.specs.ListLines.{requests_in, surveyed};
ghost use Rattle.site_files.specs.Format.{most_records, records_in};

use records::{RECORD, record_in};
use request_lines::{line_length, put_line};

// How many bytes the lines of so many records have, if all are well-formed.
pub fn survey_records(s: &[u8], count: usize) -> Option<usize>
    requires { (count ≤ most_records) × (record_size * count ≤ length s.now) }
    ensures { result ≡ surveyed (records_in count s.now) (length (list_text (requests_in (records_in count s.now)))) }
{
    let mut size = 0;
    // By the count, which may leave bytes over: chunks of the slice would say it twice, and be no plainer.
    for k in 0..count {
        let at = RECORD * k;
        let r = record_in(&s[at..at + RECORD])?;
        size += line_length(r);
    }
    Some(size)
}

// The lines of those of so many records that are well-formed, for which there is room.
pub fn put_lines(b: &mut [u8], s: &[u8], count: usize) -> usize
    requires { (record_size * count ≤ length s.now) × (length (list_text (requests_in (records_in count s.now))) ≤ length b.old) }
    ensures { Written b.old 0 (list_text (requests_in (records_in count s.now))) result b.new }
{
    let mut p = 0;
    // By the count, as in `survey_records`.
    for k in 0..count {
        let at = RECORD * k;
        if let Some(r) = record_in(&s[at..at + RECORD]) {
            p = put_line(b, p, r);
        }
    }
    p
}
