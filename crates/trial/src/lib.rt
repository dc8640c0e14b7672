// What the programs that run the calls share.
//
//     NONE           an entry of a table before a call: 999,999,999 is neither a vertex nor a corner
//     spell          the n-th string over the five letters
//     rise           some Cs, then Rs, then E
//     filled nines   an array of one value; a table of NONE
//     entries        how many entries of a table are x
//     equal          two strings, or two tables, are equal
//     at store       an entry of a table, NONE beyond it; a change of one, none beyond it
//     entry change   the same of a table of any element, and beyond it the one that is given
//     plus           a sum of counts
//     number show space  prints a number behind its name; an answer; what is in a work space
#![tactic(auto)]

ghost use Rattle.std.specs.Prelude.{◌≡◌, ◌==◌, count_by, get_or, length, replicate, set};
ghost use Rattle.std.specs.Cmp.Lexicographic.{pointwise};

use std::io;
use theory::{Counts, Letter, Refusal};

pub const NONE: u32 = 999999999;

// The letters in the order in which strings are counted.
const LETTERS: [Letter; 5] = [Letter::C, Letter::L, Letter::E, Letter::R, Letter::S];

pub fn spell(n: u32, s: &mut [u8]) {
    let mut x = n;
    for b in s.iter_mut() {
        *b = u8::from(LETTERS[(x % 5) as usize]);
        x /= 5;
    }
}

// n Cs, then Rs, then E.
pub fn rise(s: &mut [u8], n: usize) {
    s.fill(b'R');
    let n = n.min(s.len());
    s[..n].fill(b'C');
    if let Some(last) = s.last_mut() {
        *last = b'E';
    }
}

pub fn filled<T: Copy, const N: usize>(x: T) -> [T; N]
    ensures { result ≡ replicate N x }
{
    [x; N]
}

pub fn nines(tab: &mut [u32])
    ensures { tab.new ≡ replicate (length tab.old) NONE }
{
    tab.fill(NONE);
}

pub fn entries(tab: &[u32], x: u32) -> u64
    ensures { result ≡ count_by (λ y. y == x) tab.now }
{
    let mut n = 0;
    for &y in tab {
        n += u64::from(y == x);
    }
    n
}

pub fn equal<T: PartialEq>(a: &[T], b: &[T]) -> bool
    ensures { result ≡ pointwise T.eq a.now b.now }
{
    a == b
}

pub fn at(tab: &[u32], i: u32) -> u32
    ensures { result ≡ get_or tab.now i NONE }
{
    lent::entry_or(tab, i as usize, NONE)
}

pub fn store(tab: &mut [u32], i: u32, x: u32)
    ensures { tab.new ≡ set tab.old i x }
{
    lent::put(tab, i as usize, x);
}

pub fn entry<T: Copy>(tab: &[T], i: u32, none: T) -> T
    ensures { result ≡ get_or tab.now i none }
{
    tab.get(i as usize).copied().unwrap_or(none)
}

pub fn change<T: Copy>(tab: &mut [T], i: u32, x: T)
    ensures { tab.new ≡ set tab.old i x }
{
    let k = i as usize;
    if k < tab.len() {
        tab[k] = x;
    }
}

// The counts of the programs are far below what a u64 holds.
pub fn plus(a: u64, b: u64) -> u64 {
    a.saturating_add(b)
}

pub fn number(rt: &impl Print, name: &[u8], x: u64) -> io::Result<()> {
    rt.write_all(name)?;
    rt.print(x)
}

pub fn show(rt: &impl Print, a: Result<Counts, Refusal>) -> io::Result<()> {
    let (rule, place, t, v) = match a {
        Ok(counts) => (0, 0, counts.t, counts.v),
        Err(refusal) => (u32::from(refusal.rule), refusal.place, 0, 0),
    };
    number(rt, b" number=", rule as u64)?;
    number(rt, b" place=", place as u64)?;
    number(rt, b" t=", t as u64)?;
    number(rt, b" v=", v as u64)
}

pub fn space(rt: &impl Print, work: &[u32]) -> io::Result<()> {
    number(rt, b" work kept=", entries(work, NONE))?;
    number(rt, b" zero=", entries(work, 0))?;
    rt.write_all(b"\n")
}
