// Judging the letters of a string (document 01, "Numbers of an answer", 3 to 7). One pass from the right says whether
// they close. Where they do not: forward for the first byte that is no letter, forward for the end of the first word,
// and from the right once more for a C before a word of width 2 and for the width of the first word.
#![tactic(auto)]

ghost use Rattle.std.specs.Prelude.{IsTrue, ◌≡◌, ℕ, ◌<◌, ◌≤◌, length, get_or, drop};
ghost use Rattle.theory.specs.Lists.{lowest};
ghost use Rattle.theory.specs.Answer.{answer, first_broken};
ghost use Rattle.theory.specs.Letter.{letter, is_letter};
ghost use Rattle.theory.specs.Judge.{wanted, letter_rungs, string_done, letter_answer};
ghost use Rattle.judge.specs.Ends.{word_end};
ghost use Rattle.theory.specs.Word.{Closes};

mod stack;

use stack::Stack;
use theory::{Counts, Letter, Refusal, Rule};

// Of an accepted string: as many triangles as letters. The most letters stay a clause of each function: a type that
// held it would be a slice in a struct, and no plainer.
pub fn counts(s: &[u8]) -> Counts
    requires { length s.now ≤ 65536 }
    ensures { answer (Ok result) ≡ string_done s.now }
{
    let t = s.len();
    Counts {
        t: t as u32,
        v: (t / 2 + 2) as u32,
    }
}

// Yes only where the letters close. That it is yes wherever they do is not promised: after a no the letters are judged.
fn closes(s: &[u8], work: &mut [u32]) -> bool
    requires { (length s.now ≤ 65536) × (length s.now ≤ length work.old) }
    ensures { IsTrue result → Closes s.now }
{
    let mut behind = Stack::new(work);
    let mut top = None;
    for &b in s.iter().rev() {
        let Ok(a) = Letter::try_from(b) else {
            return false;
        };
        match behind.turn(a, top) {
            Some(width) if 2 <= width => top = Some(width),
            _ => return false,
        }
    }
    top == Some(2) && behind.is_empty()
}

// Number 3: the first place without a letter.
fn first_foreign(s: &[u8]) -> Option<usize>
    ensures { result ≡ lowest (λ i. is_letter (get_or s.now i 0)) (length s.now) }
{
    s.iter().position(|&b| Letter::try_from(b).is_err())
}

// How many words are wanted behind the byte b, n of them besides the word that it begins.
#[tactic(auto, unfolding(theory::specs::Judge::wanted))]
fn wanted_after(b: u8, n: usize) -> usize
    requires { n < 4294967296 }
    ensures { result ≡ wanted (letter b) n }
{
    match lent::letter_of(b) {
        Letter::C | Letter::L | Letter::R => n + 1,
        Letter::E => n,
        Letter::S => n + 2,
    }
}

// Numbers 4 and 5: where the first word ends, if the string does not end inside it.
fn words_end(s: &[u8]) -> Option<usize>
    requires { length s.now ≤ 65536 }
    ensures { result ≡ word_end s.now }
{
    let mut need = 1;
    for (i, &b) in s.iter().enumerate() {
        if need == 0 {
            return Some(i);
        }
        need = wanted_after(b, need - 1);
    }
    (need == 0).then_some(s.len())
}

// Numbers 6 and 7. The first C met from the right before a word of width 2 is the largest such position.
fn judge_widths(s: &[u8], work: &mut [u32]) -> Result<Counts, Refusal>
    requires { (length s.now ≤ 65536) × (length s.now ≤ length work.old) }
    ensures { answer result ≡ first_broken (drop 3 (letter_rungs s.now)) (string_done s.now) }
{
    let mut behind = Stack::new(work);
    let mut top = None;
    for (i, &b) in s.iter().enumerate().rev() {
        if b == b'C' && top == Some(2) {
            return Err(Rule::Pinch.at(i as u32));
        }
        top = behind.turn(lent::letter_of(b), top);
    }
    if top != Some(2) {
        return Err(Rule::Width.at(0));
    }
    Ok(counts(s))
}

// Numbers 3 to 7. Every length of work from that of s on will do; what is left in it is of no meaning.
pub fn judge_letters(s: &[u8], work: &mut [u32]) -> Result<Counts, Refusal>
    requires { (length s.now ≤ 65536) × (length s.now ≤ length work.old) }
    ensures { answer result ≡ letter_answer s.now }
{
    if closes(s, work) {
        return Ok(counts(s));
    }
    if let Some(i) = first_foreign(s) {
        return Err(Rule::Letter.at(i as u32));
    }
    match words_end(s) {
        None => Err(Rule::Unfinished.at(s.len() as u32)),
        Some(end) if end < s.len() => Err(Rule::Extra.at(end as u32)),
        Some(_) => judge_widths(s, work),
    }
}
