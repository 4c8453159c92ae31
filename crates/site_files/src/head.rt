// The bytes before a file's records: the mark, the version and the count.
ghost use Rattle.std.specs.Prelude.{◌≡◌, ◌+◌, ◌≤◌, length};
ghost use Rattle.lent.specs.Lent.{Written};
ghost use Rattle.site_files.specs.Format.{head_size, most_records, head_of, is_marked, count_in};

use lent::put_slice;
use records::{put_short, short_at};

// How many bytes stand before the records.
pub const HEAD: usize = 7;

// The most records that a file has.
pub const MOST: usize = 65535;

// Writes the head of a file of so many records at the start of lent bytes.
pub fn put_head(b: &mut [u8], count: u64) -> usize
    requires { head_size ≤ length b.old }
    ensures { Written b.old 0 (head_of count) result b.new }
{
    let p = put_slice(b, 0, b"GMQ");
    let q = put_short(b, p, 1);
    put_short(b, q, count)
}

// Whether a file has the mark and the version.
#[tactic(auto, unfolding(crate::specs::Format::is_marked, crate::specs::Format::beginning, numerals::specs::Render::ascii, records::specs::Records::high_first))]
pub fn is_marked(s: &[u8]) -> bool
    ensures { result ≡ is_marked s.now }
{
    s.starts_with(&[b'G', b'M', b'Q', 0, 1])
}

// The count of a file's records.
#[tactic(auto, unfolding(crate::specs::Format::count_in))]
pub fn count_in(s: &[u8]) -> usize
    requires { head_size ≤ length s.now }
    ensures { (result ≡ count_in s.now) × (result ≤ most_records) }
{
    short_at(s, 5) as usize
}
