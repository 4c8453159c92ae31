// What a line "no N" is written of: a number, or a refusal, which has one.
ghost use Rattle.std.specs.Prelude.{◌≡◌, ℕ};
ghost use Rattle.refusals.specs.Order.{number_of};

use refusals::Refusal;

// Why there is no answer, told by a number.
pub trait Numbered: Copy {
    ghost number: { Self → ℕ };

    fn number(self) -> u32
        ensures { result ≡ number self };
}

// Any number, whether a refusal has it or not.
impl Numbered for u32 {
    ghost number = { λ n. n };

    fn number(self) -> u32 {
        self
    }
}

// A refusal is told by its own.
impl Numbered for Refusal {
    ghost number = { number_of };

    fn number(self) -> u32 {
        u32::from(self)
    }
}
