// The files that the program writes. They are made in their place: handed on by value, they would be copied at each function's end.
ghost use Rattle.std.specs.Prelude.{◌≡◌, ◌*◌, ◌≤◌, [], length, map};
ghost use Rattle.outputs.specs.Files.{file_in, words_file, files_of};

use arrayvec::ArrayVec;
use formats::push_words;

// A file of at most N bytes: its name, and what it holds.
#[derive(Clone, Drop)]
pub struct OutputFile<const N: usize> {
    pub name: &'static [u8],
    pub bytes: ArrayVec<u8, N>,
}

impl<const N: usize> OutputFile<N> {
    // A file with no name that holds nothing.
    pub fn new() -> OutputFile<N>
        ensures name { result.name.now ≡ [] }
        ensures bytes { result.bytes.items ≡ [] }
    {
        OutputFile {
            name: b"",
            bytes: ArrayVec::new(),
        }
    }

    // Makes it a file of words.
    fn put(&mut self, name: &'static [u8], words: &[u32])
        requires { length words.now * 4 ≤ N }
        ensures { file_in self.new ≡ words_file name.now words.now }
    {
        self.name = name;
        self.bytes.clear();
        push_words(words, &mut self.bytes);
    }
}

// Makes two files `out.f32` and `aux.f32` of a take.
#[tactic(auto, unfolding(crate::specs::Files::files_of))]
pub fn fill_files<const N: usize>(out: &[u32], aux: &[u32], files: &mut [OutputFile<N>; 2])
    requires out_in_bounds { length out.now * 4 ≤ N }
    requires aux_in_bounds { length aux.now * 4 ≤ N }
    ensures { map file_in files.new ≡ files_of out.now aux.now }
{
    files[0].put(b"out.f32", out);
    files[1].put(b"aux.f32", aux);
}
