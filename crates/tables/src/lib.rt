// Tables from the letters of a string (document 01, "Tables from a string"): a pass from its end judges the widths and
// joins the corners of its triangles in the work space; where the string closes, a pass from its start makes the
// vertices.
//
// The open sides of a word are a list that is linked through their own entries of table O. Each letter does what its
// definition says; that this makes the tables of a string that closes is a law of the definitions. The corners joined,
// the records and the stack stand in the one work space: specs/Fold, on which the promise of `fold` stands, speaks of
// it whole.
#![tactic(auto)]

ghost use Rattle.std.specs.Prelude.{◌≡◌, ◌&&◌, MatchOption, false, true, ℕ, ◌+◌, ◌-◌, ◌*◌, ◌<◌, ◌≤◌, eqb, length, set};
ghost use Rattle.theory.specs.Letter.{letter};
ghost use Rattle.theory.specs.Tables.{join_at};
ghost use Rattle.tables.specs.Built.{Buildable, Built};
ghost use Rattle.tables.specs.Fold.{Foldable, Folded, Room, halts, pushed, stops};
ghost use Rattle.tables.specs.Fold.{fold_c, fold_e, fold_in, fold_l, fold_r, fold_s, fold_step};

mod labels;

use labels::fill;
use lent::{at, copy, put};
use theory::Letter;

// A word: the ends of its open sides, and where the stack of the words behind it stands. That they stand within the
// work space (`Room`) is a clause and not a field, since every letter writes the space that they are measured by.
#[derive(Clone, Copy)]
pub struct Ends {
    pub first: u32,
    pub last: u32,
    pub top: usize,
}

#[tactic(auto, unfolding(theory::specs::Tables::join_at))]
fn join(work: &mut [u32], a: u32, b: u32)
    requires { (a < length work.old) × (b < length work.old) }
    ensures { work.new ≡ join_at a b work.old }
{
    work[a as usize] = b;
    work[b as usize] = a;
}

#[tactic(auto, unfolding(crate::specs::Fold::fold_c))]
fn fold_c(k: u32, ends: Ends, work: &mut [u32]) -> Ends
    requires { Room k ends work.old }
    ensures { fold_in work.new result ≡ fold_c k (fold_in work.old ends) }
{
    let last = work[ends.last as usize];
    join(work, ends.last, 3 * k + 2);
    join(work, 3 * k + 1, 3 * (k + 1));
    Ends { last, ..ends }
}

#[tactic(auto, unfolding(crate::specs::Fold::fold_l))]
fn fold_l(k: u32, ends: Ends, work: &mut [u32]) -> Ends
    requires { Room k ends work.old }
    ensures { fold_in work.new result ≡ fold_l k (fold_in work.old ends) }
{
    join(work, 3 * k + 1, 3 * (k + 1));
    work[3 * k as usize + 2] = ends.last;
    Ends {
        last: 3 * k + 2,
        ..ends
    }
}

#[tactic(auto, unfolding(crate::specs::Fold::fold_r))]
fn fold_r(k: u32, ends: Ends, work: &mut [u32]) -> Ends
    requires { Room k ends work.old }
    ensures { fold_in work.new result ≡ fold_r k (fold_in work.old ends) }
{
    work[ends.first as usize] = 3 * k + 1;
    join(work, 3 * k + 2, 3 * (k + 1));
    Ends {
        first: 3 * k + 1,
        ..ends
    }
}

// The word behind goes on the stack, which stands three numbers lower then.
#[tactic(auto, unfolding(crate::specs::Fold::pushed))]
fn push_word(k: u32, ends: Ends, work: &mut [u32]) -> usize
    requires { Room k ends work.old }
    ensures { (result ≡ ends.top - 3) × (work.new ≡ pushed k (ends.top - 3) (fold_in work.old ends)) }
{
    let top = ends.top - 3;
    work[top] = 3 * (k + 1);
    work[top + 1] = ends.first;
    work[top + 2] = ends.last;
    top
}

#[tactic(auto, unfolding(crate::specs::Fold::pushed, crate::specs::Fold::fold_e))]
fn fold_e(k: u32, ends: Ends, work: &mut [u32]) -> Ends
    requires { Room k ends work.old }
    ensures { fold_in work.new result ≡ fold_e k (fold_in work.old ends) }
{
    let top = push_word(k, ends, work);
    work[3 * k as usize + 2] = 3 * k + 1;
    Ends {
        first: 3 * k + 1,
        last: 3 * k + 2,
        top,
    }
}

// The left branch of an S, whose tip and first open side are lent, is joined and hung behind the right branch.
#[tactic(auto, unfolding(theory::specs::Tables::join_at))]
fn splice(t: usize, k: u32, tip: u32, f: u32, last: u32, work: &mut [u32])
    requires { (k < 65536) × (t ≤ 65536) }
    ensures { work.new
        ≡ join_at (3 * k + 1) (3 * (k + 1)) (join_at (3 * k + 2) tip (set (set work.old (3 * t + k) last) f last)) }
{
    put(work, 3 * t + k as usize, last);
    put(work, f as usize, last);
    put(work, 3 * k as usize + 2, tip);
    put(work, tip as usize, 3 * k + 2);
    put(work, 3 * k as usize + 1, 3 * (k + 1));
    put(work, 3 * k as usize + 3, 3 * k + 1);
}

#[tactic(auto, unfolding(crate::specs::Fold::spliced, crate::specs::Fold::fold_s))]
fn fold_s(t: usize, k: u32, ends: Ends, work: &mut [u32]) -> Ends
    requires few { t ≤ 65536 }
    requires room { Room k ends work.old }
    ensures { fold_in work.new result ≡ fold_s t k (fold_in work.old ends) }
{
    let tip = at(work, ends.top);
    let f = at(work, ends.top + 1);
    let last = at(work, ends.top + 2);
    splice(t, k, tip, f, ends.last, work);
    Ends {
        last,
        top: ends.top + 3,
        ..ends
    }
}

// The letter a of triangle k; t triangles in all.
#[tactic(auto, unfolding(crate::specs::Fold::fold_step))]
fn step(a: Letter, t: usize, k: u32, ends: Ends, work: &mut [u32]) -> Ends
    requires few { t ≤ 65536 }
    requires room { Room k ends work.old }
    ensures { fold_in work.new result ≡ fold_step a t k (fold_in work.old ends) }
{
    match a {
        Letter::C => fold_c(k, ends, work),
        Letter::L => fold_l(k, ends, work),
        Letter::E => fold_e(k, ends, work),
        Letter::R => fold_r(k, ends, work),
        Letter::S => fold_s(t, k, ends, work),
    }
}

// The letter a cannot stand before the words behind it, of which deep counts three for each: words are missing, or it
// is a C before a word with one open side.
#[tactic(auto, unfolding(crate::specs::Fold::stops))]
fn stops(a: Letter, ends: Ends, deep: usize) -> bool
    ensures { result ≡ stops a ends deep }
{
    match a {
        Letter::C => deep < 3 || ends.first == ends.last,
        Letter::L | Letter::R => deep < 3,
        Letter::E => false,
        Letter::S => deep < 6,
    }
}

// The letter of the byte b, where it may stand before the words behind it, of which deep counts three for each.
#[tactic(auto, using(crate::proofs::Stopping::halting))]
fn letter_before(b: u8, ends: Ends, deep: usize) -> Option<Letter>
    ensures { MatchOption result (halts b ends deep ≡ true) (λ a. (halts b ends deep ≡ false) × (a ≡ letter b)) }
{
    let a = Letter::try_from(b).ok()?;
    if stops(a, ends, deep) {
        return None;
    }
    Some(a)
}

// What is left closes a sphere: one word, of which deep counts three, with one open side.
fn closes(ends: Ends, deep: usize) -> bool
    ensures { result ≡ (eqb deep 3 && eqb ends.first ends.last) }
{
    deep == 3 && ends.first == ends.last
}

// Whether a string closes; then the neighbours of its triangles and the records stand in the work space.
pub fn fold(s: &[u8], work: &mut [u32]) -> bool
    requires { Foldable s.now work.old }
    ensures { Folded s.now result work.new }
{
    let mut ends = Ends {
        first: 0,
        last: 0,
        top: work.len(),
    };
    for k in (0..s.len()).rev() {
        let Some(a) = letter_before(s[k], ends, work.len() - ends.top) else {
            return false;
        };
        ends = step(a, s.len(), k as u32, ends, work);
    }
    if !closes(ends, work.len() - ends.top) {
        return false;
    }
    join(work, ends.last, 0);
    true
}

// The tables of a string that closes, from what the first pass left in the work space.
pub fn build(s: &[u8], work: &[u32], vs: &mut [u32], os: &mut [u32])
    requires { Buildable s.now work.now vs.old os.old }
    ensures { Built s.now vs.new os.new }
{
    let (joined, notes) = work.split_at(3 * s.len());
    copy(joined, os);
    fill(s, notes, os, vs);
}
