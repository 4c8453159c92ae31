// Memory that a caller lends: bytes and numbers written into it from a place on. Each function returns the
// place after what it wrote, and leaves every other element as it was. What is lent and the place in it are two
// parameters: a struct of the two would be no plainer, since each promise speaks of both before and after.
#![tactic(auto)]

ghost use Rattle.std.specs.Prelude.{[], ◌∷◌, ◌+◌, ◌≤◌, length};
ghost use Rattle.lent.specs.Lent.{Written};

// One byte.
#[tactic(auto, using(crate::proofs::PutLaws::put_one))]
pub fn put_byte(b: &mut [u8], at: usize, v: u8) -> usize
    requires { at + 1 ≤ length b.old }
    ensures { Written b.old at (v ∷ []) result b.new }
{
    b[at] = v;
    at + 1
}

// Some bytes, or some numbers.
#[tactic(auto, using(crate::proofs::PutLaws::written_part))]
pub fn put_slice<T: Copy>(b: &mut [T], at: usize, s: &[T]) -> usize
    requires { at + length s.now ≤ length b.old }
    ensures { Written b.old at s.now result b.new }
{
    let end = at + s.len();
    b[at..end].copy_from_slice(s);
    end
}
