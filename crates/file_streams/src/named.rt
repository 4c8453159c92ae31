// A file with its path: what the system does not do with it is said under that.
ghost use Rattle.std.specs.Prelude.{◌≤◌, length, IfOk, IsOkUnless};
ghost use Rattle.file_streams.specs.declared.Failure.TheVariants.{System};

use crate::Failure;
use failures::say_failed;
use std::io::{Read, Seek, SeekFrom, Write};

// The file, its path, and the runtime on which it is said why it fails.
#[derive(Drop)]
pub struct Named<'a, R, F> {
    pub rt: &'a R,
    pub path: &'a str,
    pub file: F,
}

impl<R: Eprint, F: Read> Named<'_, R, F> {
    // Reads to the start of a buffer: how many bytes came, none at the end.
    pub(crate) fn read(&mut self, buffer: &mut [u8]) -> Result<usize, Failure>
        ensures bound { IfOk result (λ n. n ≤ length buffer.new) }
        ensures fails { IsOkUnless result System }
    {
        let n = self
            .file
            .read(buffer)
            .map_err(|error| say_failed(self.rt, self.path, error))?;
        Ok(n)
    }
}

impl<R: Eprint, F: Write> Named<'_, R, F> {
    // Writes all of some bytes.
    pub(crate) fn write_all(&mut self, s: &[u8]) -> Result<(), Failure>
        ensures { IsOkUnless result System }
    {
        self.file
            .write_all(s)
            .map_err(|error| say_failed(self.rt, self.path, error))?;
        Ok(())
    }
}

impl<R: Eprint, F: Seek> Named<'_, R, F> {
    // Goes back to its beginning.
    pub(crate) fn rewind(&mut self) -> Result<(), Failure>
        ensures { IsOkUnless result System }
    {
        self.file
            .seek(SeekFrom::Start(0))
            .map_err(|error| say_failed(self.rt, self.path, error))?;
        Ok(())
    }
}
