// What one program does that the other does not.
ghost use Rattle.std.specs.Prelude.{Result};
ghost use Rattle.file_streams.specs.declared.Failure.{Failure};
ghost use Rattle.file_streams.specs.Ends.{PackEnd, UnpackEnd};

use crate::texts::{PACK, UNPACK};
use file_streams::{Failure, Named, pack_stream, unpack_stream};
use std::io::{Read, Seek, Write};
use usage::Texts;

// A program that reads one file and writes another: how a run of it ends, what it says of itself, and the run.
pub trait Program: Drop {
    ghost ends: { Result (Unit {0}) Failure → Type 0 };

    fn texts(&self) -> Texts<'static>;

    fn stream<R: Eprint, F: Read, T: Write + Seek + Drop>(
        self,
        from: &mut Named<R, F>,
        to: Named<R, T>,
    ) -> Result<(), Failure>
        ensures { ends result };
}

// The one that writes a file of a list.
#[derive(Clone, Copy)]
pub struct Pack;

impl Program for Pack {
    ghost ends = { PackEnd };

    fn texts(&self) -> Texts<'static> {
        PACK
    }

    fn stream<R: Eprint, F: Read, T: Write + Seek + Drop>(
        self,
        from: &mut Named<R, F>,
        mut to: Named<R, T>,
    ) -> Result<(), Failure> {
        pack_stream(from, &mut to)
    }
}

// The one that writes the list of a file.
#[derive(Clone, Copy)]
pub struct Unpack;

impl Program for Unpack {
    ghost ends = { UnpackEnd };

    fn texts(&self) -> Texts<'static> {
        UNPACK
    }

    fn stream<R: Eprint, F: Read, T: Write + Seek + Drop>(
        self,
        from: &mut Named<R, F>,
        mut to: Named<R, T>,
    ) -> Result<(), Failure> {
        unpack_stream(from, &mut to)
    }
}
