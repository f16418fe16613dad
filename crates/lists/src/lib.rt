// Runs of words moved within a longer one.
#![tactic(auto)]

ghost use Rattle.std.specs.Prelude.{◌≡◌, ◌+◌, ◌-◌, ◌*◌, ◌≤◌, ◌<◌, length, take, drop};
ghost use Rattle.lists.specs.Lists.{part, put, shift_up, shift_down};

// How many words are moved at a time.
const CHUNK: usize = 64;

// Words copied to another place of the same run, by places and not by slices, since the two may overlap; by way of a buffer, from which the
// compiler makes one move: std's `copy_within`, word by word, takes a quarter longer for the 53,000 words that a score keeps (11.5 against 9.2 µs).
fn move_chunk(words: &mut [u32], from: usize, to: usize, count: usize, buffer: &mut [u32; CHUNK])
    requires { (count ≤ 64) × ((from + count ≤ length words.old) × (to + count ≤ length words.old)) }
    ensures { words.new ≡ put words.old to (take count (drop from words.old)) }
{
    buffer[..count].copy_from_slice(&words[from..from + count]);
    words[to..to + count].copy_from_slice(&buffer[..count]);
}

// The words from `from` to before `end` moved up by so many places, the last chunk first: which one goes first depends on the way, so down is a
// function of its own. A while: over chunks by their number, as a `for` goes, it takes twice as long, as two copies a chunk.
fn move_up(words: &mut [u32], from: usize, end: usize, by: usize)
    requires { (from ≤ end) × (end + by ≤ length words.old) }
    ensures { words.new ≡ put words.old (from + by) (take (end - from) (drop from words.old)) }
{
    let mut buffer = [0; CHUNK];
    let mut at = end;
    while from < at {
        let count = CHUNK.min(at - from);
        at -= count;
        let to = at + by;
        move_chunk(words, at, to, count, &mut buffer);
    }
}

// The same down, the first chunk first.
fn move_down(words: &mut [u32], from: usize, end: usize, by: usize)
    requires { (by ≤ from) × ((from ≤ end) × (end ≤ length words.old)) }
    ensures { words.new ≡ put words.old (from - by) (take (end - from) (drop from words.old)) }
{
    let mut buffer = [0; CHUNK];
    let mut at = from;
    while at < end {
        let count = CHUNK.min(end - at);
        let to = at - by;
        move_chunk(words, at, to, count, &mut buffer);
        at += count;
    }
}

// Of n parts of one width, those from part p on moved up by one place: p may be n, and then there is none. The width is no const parameter: that of
// a row's samples is known only when a call is made.
pub fn shift_up(words: &mut [u32], width: usize, p: usize, n: usize)
    requires { (p ≤ n) × ((n + 1) * width ≤ length words.old) }
    ensures { words.new ≡ shift_up width words.old p n }
{
    let from = p * width;
    let end = n * width;
    move_up(words, from, end, width);
}

// Of n parts of one width, those behind part p, which is one of them, moved down by one place.
pub fn shift_down(words: &mut [u32], width: usize, p: usize, n: usize)
    requires { (p < n) × (n * width ≤ length words.old) }
    ensures { words.new ≡ shift_down width words.old p n }
{
    let from = (p + 1) * width;
    let end = n * width;
    move_down(words, from, end, width);
}

// Part k of words in parts of N. That it lies within them is a clause, here and for rows: a type for words that were tested would be made just to
// be taken apart.
pub fn part<const N: usize>(words: &[u32], k: usize) -> [u32; N]
    requires { k * N + N ≤ length words.now }
    ensures { result ≡ part N words.now k }
{
    let a = k * N;
    words[a..a + N].try_into().unwrap()
}

// N words in the place of part k.
pub fn put_part<const N: usize>(words: &mut [u32], k: usize, new: [u32; N])
    requires { k * N + N ≤ length words.old }
    ensures { words.new ≡ put words.old (k * N) new.entry }
{
    let a = k * N;
    words[a..a + N].copy_from_slice(&new);
}
