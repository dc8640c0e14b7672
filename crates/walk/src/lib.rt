// The encoder's loop (document 01, "Walk and letters"): t steps at most from the gate corner, each with its letter.
//
// work is one table: work[k] for triangle k, work[t + u] for vertex u, not 0 where visited or marked; the steps made
// stand from 3t on; the waiting lefts are a stack that grows down from its end. It is not parted into slices:
// specs/Table, on which the promise of `trace` stands, speaks of it as a whole.
#![tactic(auto)]

ghost use Rattle.std.specs.Prelude.{◌≡◌, ◌+◌, ◌*◌, ◌≤◌, ◌<◌, length, option_map, set, slice_get};
ghost use Rattle.theory.specs.Corner.{vertex};
ghost use Rattle.theory.specs.Letter.{byte};
ghost use Rattle.walk.specs.Table.{gate_in};
ghost use Rattle.walk.specs.Calls.{Steppable, Stepped, Traceable, Traced, Spelt};

use corner::{left_of, next_of, previous_of, right_of};
use lent::{at, clear_front, put};
use theory::Letter;

// Where the walk stands: its corner, and the stack's top.
#[derive(Clone, Copy)]
pub struct Spot {
    pub at: usize,
    pub top: usize,
}

// Where the walk goes on after an E: at the last of the waiting lefts, if one waits.
fn waiting(work: &[u32], top: usize) -> Option<Spot>
    ensures { result ≡ option_map (λ d. record { at = d; top = top + 1 }) (slice_get work.now top) }
{
    work.get(top).map(|&d| Spot {
        at: d as usize,
        top: top + 1,
    })
}

// One step: its letter, and where the walk goes on; None where it ends.
fn step(vs: &[u32], os: &[u32], work: &mut [u32], t: usize, here: Spot) -> (Letter, Option<Spot>)
    requires { Steppable vs.now os.now t here work.old }
    ensures { Stepped vs.now os.now t here work.old result.0 result.1 work.new }
{
    let Spot { at, top } = here;
    let tip = t + vs[at] as usize;
    let l = left_of(os, at);
    let r = right_of(os, at);
    work[at / 3] = 1;
    if work[tip] == 0 {
        work[tip] = 1;
        return (Letter::C, Some(Spot { at: r, top }));
    }
    match (work[l / 3] == 0, work[r / 3] == 0) {
        (true, true) => {
            let top = top - 1;
            work[top] = l as u32;
            (Letter::S, Some(Spot { at: r, top }))
        }
        (true, false) => (Letter::R, Some(Spot { at: l, top })),
        (false, true) => (Letter::L, Some(Spot { at: r, top })),
        (false, false) => (Letter::E, waiting(work, top)),
    }
}

// The vertex at corner c is marked.
fn mark_tip(vs: &[u32], work: &mut [u32], t: usize, c: usize)
    requires { t ≤ 65536 }
    ensures { work.new ≡ set work.old (t + vertex vs.now c) 1 }
{
    put(work, t + at(vs, c) as usize, 1);
}

// The two ends of the gate corner's edge are marked.
fn mark_gate(vs: &[u32], work: &mut [u32], t: usize, g: usize)
    requires { (t ≤ 65536) × (g < 3 * t) }
    ensures { work.new ≡ gate_in vs.now t g work.old }
{
    let a = next_of(g);
    let b = previous_of(g);
    mark_tip(vs, work, t, a);
    mark_tip(vs, work, t, b);
}

// A step at corner c with the letter a, kept as one number.
fn keep(work: &mut [u32], i: usize, c: usize, a: Letter)
    requires { (i < length work.old) × (c < 196608) }
    ensures { work.new ≡ set work.old i (256 * c + byte a) }
{
    work[i] = 256 * (c as u32) + u32::from(u8::from(a));
}

// The walk from the gate corner g, its steps kept in work from 3t on.
#[inline(never)]
pub fn trace(vs: &[u32], os: &[u32], v: u32, g: u32, work: &mut [u32])
    requires { Traceable vs.now os.now v g work.old }
    ensures { Traced vs.now os.now v g work.new }
{
    let t = vs.len() / 3;
    let mut here = Spot {
        at: g as usize,
        top: work.len(),
    };
    clear_front(work, t + v as usize);
    mark_gate(vs, work, t, here.at);
    for k in 0..t {
        let (letter, next) = step(vs, os, work, t, here);
        keep(work, 3 * t + k, here.at, letter);
        let Some(next) = next else { break };
        here = next;
    }
}

// The letters and the corners of the t steps that are kept.
pub fn spell_out(work: &[u32], t: usize, letters: &mut [u8], walk: &mut [u32])
    requires { (t ≤ 65536) × (4 * t ≤ length work.now) × (t ≤ length letters.old) × (t ≤ length walk.old) }
    ensures { Spelt work.now t letters.old walk.old letters.new walk.new }
{
    for k in 0..t {
        let x = work[3 * t + k];
        letters[k] = (x % 256) as u8;
        walk[k] = x / 256;
    }
}
