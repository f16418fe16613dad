// What the programs that try out the library share: they print, read an input, fill banks and maps, lend words to calls, and tell one run of
// words or bytes from another. No part of the product calls it.
#![tactic(auto)]

ghost use Rattle.std.specs.Prelude.{◌≡◌, ◌≤◌, ℕ, length, map};
ghost use Rattle.rows.specs.Rows.{setup_by, lent};
ghost use Rattle.take.specs.Take.{outcome, call_of};
ghost use Rattle.trial.specs.Trial.{next_of, numbers, number_after, high_byte, sample_of, mixed_of, sum_of};

use refusals::Call;
use rows::{Patch, Report, Take};
use score::refusal::Refusal;
use std::io::Read;

// Writes a text and two numbers, each with a space before it. What the system does not take is let go.
pub fn say_two(rt: &impl Print, text: &[u8], first: u64, second: u64) {
    let _ = rt.write_all(text);
    let _ = print!(rt; " {first}");
    let _ = print!(rt; " {second}");
}

// Reads standard input until the bytes are full, it ends or a read fails; how many bytes came.
// A while, and not `io::copy`: that fails where more comes than there is room for, and here what came before a failure counts.
pub fn read_input(rt: &impl Input, bytes: &mut [u8]) -> usize
    ensures { result ≤ length bytes.new }
{
    let mut from = rt.reader();
    let mut at = 0;
    while at < bytes.len() {
        let got = from.read(&mut bytes[at..]).unwrap_or(0);
        if got == 0 {
            return at;
        }
        at += got;
    }
    at
}

// The next number of a series that any language can make: s = 1664525 s + 1013904223 mod 2^32.
fn next(s: u32) -> u32
    ensures { result ≡ next_of s }
{
    s.wrapping_mul(1664525).wrapping_add(1013904223)
}

// What a number of the series gives.
pub trait Drawn: Copy {
    ghost drawn_of: { ℕ → Self };

    fn drawn(s: u32) -> Self
        ensures { result ≡ drawn_of s };
}

// The highest byte.
impl Drawn for u8 {
    ghost drawn_of = { high_byte };

    fn drawn(s: u32) -> u8 {
        (s >> 24) as u8
    }
}

// A sample: the upper half, less 32,768.
impl Drawn for i16 {
    ghost drawn_of = { sample_of };

    fn drawn(s: u32) -> i16 {
        ((s >> 16) as i32 - 32768) as i16
    }
}

// Bytes or samples from a seed, each of a number of the series. Gives the number that the series has come to.
pub fn fill<T: Drawn>(seed: u32, entries: &mut [T]) -> u32
    ensures value { result ≡ number_after (length entries.old) seed }
    ensures entries_after { entries.new ≡ numbers T.drawn_of (length entries.old) seed }
{
    let mut s = seed;
    for entry in entries.iter_mut() {
        s = next(s);
        *entry = T::drawn(s);
    }
    s
}

// The bank and the map of a seed: the map goes on where the bank ends.
pub fn fill_tables(seed: u32, bank: &mut [i16], map: &mut [u8])
    ensures bank_after { bank.new ≡ numbers sample_of (length bank.old) seed }
    ensures map_after { map.new ≡ numbers high_byte (length map.old) (number_after (length bank.old) seed) }
{
    let s = fill(seed, bank);
    fill(s, map);
}

// The words that a call is lent, in arrays: of rows, of a run's samples, and of what is kept.
#[derive(Clone, Copy)]
pub struct Words<const ROWS: usize, const SAMPLES: usize, const KEPT: usize> {
    pub rows: [u32; ROWS],
    pub out: [u32; SAMPLES],
    pub aux: [u32; SAMPLES],
    pub kept: [u32; KEPT],
}

impl<const ROWS: usize, const SAMPLES: usize, const KEPT: usize> Words<ROWS, SAMPLES, KEPT> {
    // Calls, with a score of `count` rows.
    pub fn call(&mut self, patch: Patch<'_>, count: usize, call: Call) -> Result<Report, Refusal>
        ensures { outcome result self.new.rows (lent self.new.out self.new.aux self.new.kept)
            ≡ call_of (setup_by patch.entry) count self.old.rows (lent self.old.out self.old.aux self.old.kept) call }
    {
        perform(
            patch,
            &mut self.rows,
            count,
            call,
            &mut self.out,
            &mut self.aux,
            &mut self.kept,
        )
    }
}

// A call over lent words that stand side by side, by the function of its kind, which C and the program call.
pub fn perform(
    patch: Patch<'_>,
    rows: &mut [u32],
    count: usize,
    call: Call,
    out: &mut [u32],
    aux: &mut [u32],
    kept: &mut [u32],
) -> Result<Report, Refusal>
    ensures { outcome result rows.new (lent out.new aux.new kept.new)
        ≡ call_of (setup_by patch.entry) count rows.old (lent out.old aux.old kept.old) call }
{
    let mut take = Take { out, aux, kept };
    match call {
        Call::Render => take::render(patch, rows, count, &mut take),
        Call::Edit(position, row) => take::edit(patch, rows, count, position, row, &mut take),
        Call::Insert(position, row) => take::insert(patch, rows, count, position, row, &mut take),
        Call::Remove(position) => take::remove(patch, rows, count, position, &mut take),
    }
}

// What a check number takes in as a word. No `Into<u32>`: its `converts` is a relation, and the sum's equation needs a function of the item.
pub trait Word: Copy {
    ghost word_of: { Self → ℕ };

    fn word(self) -> u32
        ensures { result ≡ word_of self };
}

impl Word for u32 {
    ghost word_of = { λ w. w };

    fn word(self) -> u32 {
        self
    }
}

impl Word for u8 {
    ghost word_of = { λ b. b };

    fn word(self) -> u32 {
        self.into()
    }
}

// A check number with one word more: h = 65599 h + word mod 4294967291.
fn mixed(h: u32, w: u32) -> u32
    ensures { result ≡ mixed_of h w }
{
    ((65599 * u64::from(h) + u64::from(w)) % 4294967291) as u32
}

// A number that tells one list of words or bytes from another.
pub fn sum_of<T: Word>(items: &[T]) -> u64
    ensures { result ≡ sum_of (map T.word_of items.now) }
{
    items.iter().fold(0, |h, item| mixed(h, item.word())).into()
}
