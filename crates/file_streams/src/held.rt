// What is held of a line that is not finished: bytes and how many they are, since no list changes the memory of a run.
ghost use Rattle.std.specs.Prelude.{◌≡◌, ◌≤◌, [], length, take};
ghost use Rattle.text.specs.Grammar.{longest};

use text::LONGEST;

// Its first bytes, so many.
#[derive(Drop)]
pub struct Held {
    pub bytes: [u8; LONGEST],
    pub count: usize,
    ghost within: { count ≤ longest },
}

impl Held {
    // Nothing.
    pub fn new() -> Self
        ensures { take result.count result.bytes ≡ [] }
    {
        Held {
            bytes: [0; LONGEST],
            count: 0,
        }
    }

    // The bytes held.
    pub fn as_slice(&self) -> &[u8]
        ensures { result.now ≡ take self.now.count self.now.bytes }
    {
        &self.bytes[..self.count]
    }

    // Holds others in their place.
    pub fn hold(&mut self, rest: &[u8])
        requires { length rest.now ≤ longest }
        ensures { take self.new.count self.new.bytes ≡ rest.now }
    {
        let mut bytes = self.bytes;
        bytes[..rest.len()].copy_from_slice(rest);
        *self = Held {
            bytes,
            count: rest.len(),
        };
    }
}
