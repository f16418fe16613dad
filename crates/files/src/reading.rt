// Reading a file into lent bytes, a chunk at a time.
ghost use Rattle.std.specs.Prelude.{◌≡◌, ◌+◌, ◌≤◌, length, take, drop};
ghost use Rattle.std.specs.Counts.{IsPrefixLen};
ghost use Rattle.std.specs.Io.KnownBytes.{Consumes};
ghost use Rattle.files.specs.Chunks.{CameIn, chunk};

use std::fs;
use std::io::Read;
use std::rt::Files;

// Files are read so many bytes at a time: 4 KiB.
const CHUNK: usize = 4096;

// Reads once, at most a chunk and no more than there is room for, from byte `at` on; how many bytes came: 0 at the file's end, as `Read::read`
// says it, and where a read fails. Past the chunk the bytes stay.
fn read_some<R: Read>(file: &mut R, bytes: &mut [u8], at: usize) -> usize
    requires { at ≤ length bytes.old }
    ensures came { CameIn (R.remaining file.old) (R.remaining file.new) bytes.old at bytes.new result }
    ensures past { drop (at + chunk) bytes.new ≡ drop (at + chunk) bytes.old }
{
    let end = at + (bytes.len() - at).min(CHUNK);
    file.read(&mut bytes[at..end]).unwrap_or(0)
}

// Reads until the bytes are full or the file ends; how many bytes came: they are the first that the reader had left.
// A while, and not `io::copy`: that says nothing of the bytes that came before a read fails, and here they count.
fn read_all<R: Read>(file: &mut R, bytes: &mut [u8]) -> usize
    ensures prefix { IsPrefixLen result bytes.new }
    ensures read { Consumes (R.remaining file.old) (R.remaining file.new) (take result bytes.new) }
{
    let mut at = 0;
    while at < bytes.len() {
        let got = read_some(file, bytes, at);
        if got == 0 {
            return at;
        }
        at += got;
    }
    at
}

// Reads a file, as much of it as there is room for; one that won't open counts as empty. How many bytes came.
pub fn read_file(files: &impl Files, path: &[u8], bytes: &mut [u8]) -> usize
    ensures { IsPrefixLen result bytes.new }
{
    let Ok(name) = str::from_utf8(path) else {
        return 0;
    };
    match fs::open(files, name) {
        Ok(mut file) => read_all(&mut file, bytes),
        Err(_) => 0,
    }
}
