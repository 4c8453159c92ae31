// A file that appears whole or not at all: it is made under a name of its own in its target's folder, brought
// to the disk and then renamed, so that until then an old target stays as it is.
#![tactic(auto)]

ghost use Rattle.std.specs.Prelude.{◌≡◌, ◌≤◌, length, IfOk};
ghost use Rattle.lent.specs.Lent.{Written};
ghost use Rattle.whole_files.specs.Names.{longest_path, name_room, name_of};

use cuts::up_to_last;
use failures::{Failed, say_failed};
use lent::put_slice;
use numerals::{put_ended, put_number};
use std::fs::{File, OpenFile};
use std::io::ErrorKind;
use std::process::Process;
use std::rt::Files;
use std::str::from_utf8;
use std::{fs, io, process};

// How many bytes hold any name: a path, and what is put behind its folder.
pub const NAME: usize = 4160;

// How many bytes hold any path, with the 0 that ends it for the system.
pub const PATH: usize = 4096;

// How often a name is tried: another process with this one's number may have left some.
const TRIES: u64 = 100;

// A file that was begun: what is written into, the name under which it stands, and the path that it is to get.
#[derive(Drop)]
pub struct Begun<'n, 't, F> {
    pub file: F,
    pub name: &'n [u8],
    pub target: &'t str,
}

// Writes the name for a target at the start of lent bytes.
fn put_name(name: &mut [u8], target: &[u8], process: u64, attempt: u64) -> usize
    requires { (length target.now ≤ longest_path) × (name_room ≤ length name.old) }
    ensures written { Written name.old 0 (name_of target.now process attempt) result name.new }
    ensures within { result ≤ length name.new }
{
    let n = up_to_last(target, b'/');
    let p = put_slice(name, 0, &target[..n]);
    let q = put_slice(name, p, b".xanhupive-");
    let r = put_ended(name, q, process, b'-');
    put_number(name, r, attempt)
}

// A name as text, as the system's calls take it.
fn text_of(name: &[u8]) -> io::Result<&str> {
    from_utf8(name).map_err(|_| io::Error::from(ErrorKind::InvalidFilename))
}

// Makes a new file under a name.
fn create<R: Files>(rt: &R, name: &[u8]) -> io::Result<R::File> {
    let mut options = File::options();
    options
        .write(true)
        .create_new(true)
        .open(rt, text_of(name)?)
}

// Opens a folder to read.
fn open_folder<R: Files>(rt: &R, folder: &[u8]) -> io::Result<R::File> {
    fs::open(rt, text_of(folder)?)
}

// Takes a name away. Whether it can be changes nothing.
fn remove(rt: &impl Files, name: &[u8]) {
    if let Ok(path) = text_of(name) {
        let _ = fs::remove_file(rt, path);
    }
}

// Gives what stands under a name its target's.
fn rename(rt: &impl Files, name: &[u8], target: &str) -> io::Result<()> {
    fs::rename(rt, text_of(name)?, target)
}

// Whether a file could not be made since its name is another's, by what making it answered.
fn is_taken<F>(made: &io::Result<F>) -> bool {
    matches!(made, Err(error) if error.kind() == ErrorKind::AlreadyExists)
}

// Makes a new file for a target under the name of one attempt, and answers with how long that is.
fn attempt_at<R: Files>(
    rt: &R,
    target: &[u8],
    name: &mut [u8],
    process: u64,
    attempt: u64,
) -> io::Result<(R::File, usize)>
    requires { (length target.now ≤ longest_path) × (name_room ≤ length name.old) }
    ensures { (length name.new ≡ length name.old) × IfOk result (λ made. made.1 ≤ length name.new) }
{
    let n = put_name(name, target, process, attempt);
    let file = create(rt, &name[..n])?;
    Ok((file, n))
}

// Makes a new file for a target, under a name of its own that goes into lent bytes.
pub fn begin<'n, 't, R: Files>(
    rt: &R,
    process: Process,
    target: &'t str,
    name: &'n mut [u8],
) -> io::Result<Begun<'n, 't, R::File>>
    requires { (length target.now ≤ longest_path) × (name_room ≤ length name.old) }
    ensures { IfOk result (λ begun. length begun.name.now ≤ length name.old) }
{
    let number = u64::from(process::id(process));
    let mut made = attempt_at(rt, target.as_bytes(), name, number, 0);
    for attempt in 1..TRIES {
        if !is_taken(&made) {
            break;
        }
        made = attempt_at(rt, target.as_bytes(), name, number, attempt);
    }
    let (file, n) = made?;
    Ok(Begun {
        file,
        name: &name[..n],
        target,
    })
}

// Brings what a folder lists to the disk. Not every system can, and then nothing is lost but time.
fn sync_folder(rt: &impl Files, target: &str) {
    let target = target.as_bytes();
    let end = up_to_last(target, b'/');
    let opened = if end == 0 {
        fs::open(rt, ".")
    } else {
        open_folder(rt, &target[..end])
    };
    if let Ok(folder) = opened {
        let _ = folder.sync_all();
    }
}

impl<F: OpenFile + Drop> Begun<'_, '_, F> {
    // Takes it away again.
    pub fn discard(self, rt: &impl Files) {
        drop(self.file);
        remove(rt, self.name);
    }

    // Brings it to the disk and gives it its target's name, or says why it cannot and takes it away.
    pub fn keep(self, rt: &(impl Files + Eprint)) -> Result<(), Failed> {
        if let Err(error) = self.file.sync_all() {
            let failed = say_failed(rt, self.target, error);
            self.discard(rt);
            return Err(failed);
        }
        drop(self.file);
        if let Err(error) = rename(rt, self.name, self.target) {
            let failed = say_failed(rt, self.target, error);
            remove(rt, self.name);
            return Err(failed);
        }
        sync_folder(rt, self.target);
        Ok(())
    }
}

// Says a refusal's number on standard error, as the line "no N".
pub fn say_no(rt: &impl Eprint, n: u32) {
    let _ = eprintln!(rt; "no {n}");
}
