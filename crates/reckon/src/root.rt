// The square root rounded down.
ghost use Rattle.std.specs.Prelude.{◌≡◌};
ghost use Rattle.exact.specs.Root.{root};

// From the root of a quarter of n: twice it, or one more. Document 01 asks for this recursion, so the library's
// isqrt does not stand here.
pub fn whole_root(n: u64) -> u64
    ensures { result ≡ root n }
{
    if n == 0 {
        return 0;
    }
    let low = 2 * whole_root(n / 4);
    let high = low + 1;
    if high * high <= n { high } else { low }
}
