// Writing a file whole or not at all: a new file beside it is written first, and then takes its place. Where that fails, a line on
// standard error says so, the new file is removed, and the old one is as it was.
ghost use Rattle.std.specs.Prelude.{◌≡◌, ◌≤◌, ◌++◌, length, IsSome, IfSome, ◌↔◌, OnOk};
ghost use Rattle.std.specs.Io.KnownBytes.{Appends};
ghost use Rattle.files.specs.Beside.{most_beside, beside};

use arrayvec::ArrayString;
use std::fs::{File, OpenFile};
use std::io::{Error, ErrorKind, Write};
use std::rt::Files;
use std::{fs, io};

// The most bytes of a file's name, and of the name of the file beside it.
const MOST_NAME: usize = 60;

const MOST_BESIDE: usize = MOST_NAME + 4;

// A file to write: its name, and all that it is to hold, lent: who owns the bytes, and in what, is nothing to this crate.
#[derive(Clone, Copy)]
pub struct NewFile<'a> {
    pub name: &'a [u8],
    pub bytes: &'a [u8],
}

// The name of the file beside: `.new` behind the file's own name. A name that is too long has none.
fn put_beside(name: &str) -> Option<ArrayString<MOST_BESIDE>>
    ensures some { IfSome result (λ b. b.bytes ≡ beside name.now) }
    ensures variant { IsSome result ↔ (length (beside name.now) ≤ most_beside) }
{
    let mut beside = ArrayString::new();
    beside.try_push_str(name).ok()?;
    beside.try_push_str(".new").ok()?;
    Some(beside)
}

// A name as the system's calls take it.
fn as_text(name: &[u8]) -> io::Result<&str> {
    str::from_utf8(name).map_err(|_| Error::new(
        ErrorKind::InvalidFilename,
        "a name that is not UTF-8",
    ))
}

// A line on standard error: the file's name, and why it is not written.
fn fail(rt: &impl Eprint, name: &[u8], error: Error) {
    let _ = eprintln!(rt; "{}: {error}", name.escape_ascii());
}

// Writes all the bytes, and waits until they have reached the disk.
fn fill<W: Write + OpenFile>(file: &mut W, bytes: &[u8]) -> io::Result<()>
    ensures { OnOk result (Appends (W.contents file.old) (W.contents file.new) bytes.now) }
{
    file.write_all(bytes)?;
    file.sync_all()
}

// A file's name, and the name of the file beside it: once `write` has answered it, that one holds all that the file is to hold.
#[derive(Drop)]
struct Draft<'a> {
    name: &'a str,
    beside: ArrayString<MOST_BESIDE>,
}

impl<'a> Draft<'a> {
    // The file beside, with nothing in it yet. One that an earlier run left is removed first. A name that is too long has none beside it: the
    // system says so of the empty name.
    fn create<F: Files>(rt: &F, name: &'a [u8]) -> io::Result<(Draft<'a>, F::File)> {
        let name = as_text(name)?;
        let beside = put_beside(name).unwrap_or_default();
        let draft = Draft { name, beside };
        draft.discard(rt);
        let file = File::create_new(rt, draft.beside.as_str())?;
        Ok((draft, file))
    }

    // Writes the file beside: all of it, or a line says why not, and nothing is left there.
    fn write(rt: &(impl Files + Eprint), new: NewFile<'a>) -> Option<Draft<'a>> {
        let (draft, mut file) = match Draft::create(rt, new.name) {
            Ok(created) => created,
            Err(e) => {
                fail(rt, new.name, e);
                return None;
            }
        };
        if let Err(e) = fill(&mut file, new.bytes) {
            fail(rt, new.name, e);
            draft.discard(rt);
            return None;
        }
        Some(draft)
    }

    // Removes the file beside, if it is there.
    fn discard(&self, rt: &impl Files) {
        let _ = fs::remove_file(rt, self.beside.as_str());
    }

    // The file beside takes the file's place.
    fn replace(&self, rt: &(impl Files + Eprint)) {
        if let Err(e) = fs::rename(rt, self.beside.as_str(), self.name) {
            fail(rt, self.name.as_bytes(), e);
            self.discard(rt);
        }
    }
}

// Writes two files; neither takes its place before both are written. What the system holds then, no contract can say.
pub fn write_two(rt: &(impl Files + Eprint), first: NewFile<'_>, second: NewFile<'_>) {
    let Some(one) = Draft::write(rt, first) else {
        return;
    };
    let Some(two) = Draft::write(rt, second) else {
        return one.discard(rt);
    };
    one.replace(rt);
    two.replace(rt);
}
