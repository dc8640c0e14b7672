// Leaves of the connectivity part: one number of a lent table, a lent table as a whole, a stack that grows down in
// one, two tables of a mesh's shape, the letter of a byte, and the test of a count. Each says exactly what it reads or
// stores.
#![tactic(auto)]

ghost use Rattle.std.specs.Prelude.{◌≡◌, ◌++◌, ◌-◌, ◌<◌, ◌≤◌, length, drop, get_or, set, replicate};
ghost use Rattle.theory.specs.Answer.{count_ok};
ghost use Rattle.theory.specs.Letter.{letter};

mod shape;

pub use shape::Tables;
use theory::Letter;

// The entry at i, the number none beyond the end.
pub fn entry_or(tab: &[u32], i: usize, none: u32) -> u32
    ensures { result ≡ get_or tab.now i none }
{
    tab.get(i).copied().unwrap_or(none)
}

// The entry at i, 0 beyond the end.
pub fn at(tab: &[u32], i: usize) -> u32
    ensures { result ≡ get_or tab.now i 0 }
{
    entry_or(tab, i, 0)
}

// A store; beyond the end it stores nothing. By index, since a proof knows no element after a store through `get_mut`.
pub fn put(tab: &mut [u32], i: usize, x: u32)
    ensures { tab.new ≡ set tab.old i x }
{
    if i < tab.len() {
        tab[i] = x;
    }
}

// All zero, the whole length.
pub fn clear(work: &mut [u32])
    ensures { work.new ≡ replicate (length work.old) 0 }
{
    work.fill(0);
}

// The first n numbers zero, the others as they come.
pub fn clear_front(work: &mut [u32], n: usize)
    requires { n ≤ length work.old }
    ensures { work.new ≡ replicate n 0 ++ drop n work.old }
{
    work[..n].fill(0);
}

// One slice is carried over into another of its length. A loop, since `copy_from_slice` would make the archive for C
// ask for memmove from outside.
pub fn copy<T: Copy>(from: &[T], to: &mut [T])
    requires { length to.old ≡ length from.now }
    ensures { to.new ≡ from.now }
{
    for (i, &x) in from.iter().enumerate() {
        to[i] = x;
    }
}

// The stack that is work from p on: one number more.
pub fn push(work: &mut [u32], p: usize, x: u32) -> usize
    requires { (0 < p) × (p ≤ length work.old) }
    ensures { (result ≡ p - 1) × (work.new ≡ set work.old (p - 1) x) }
{
    work[p - 1] = x;
    p - 1
}

// A byte that is no letter is read as S; where that matters, `Letter::try_from` tells.
pub fn letter_of(b: u8) -> Letter
    ensures { result ≡ letter b }
{
    Letter::try_from(b).unwrap_or(Letter::S)
}

// t even, 2 to 65,536.
#[tactic(auto, unfolding(theory::specs::Answer::count_ok))]
pub fn count_ok(t: usize) -> bool
    ensures { result ≡ count_ok t }
{
    t % 2 == 0 && 2 <= t && t <= 65536
}
