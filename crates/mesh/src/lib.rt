// The mesh check: numbers 8 to 15 of an answer (document 01, "Numbers of an answer"), in their order, each over the
// whole table before the next. Linear on every input; the work space may hold anything.
#![tactic(auto)]

ghost use Rattle.std.specs.Prelude.{◌≡◌, true, ℕ, ◌+◌, ◌*◌, ◌/◌, ◌<◌, ◌≤◌, length, get_or, replicate, Some, None};
ghost use Rattle.std.specs.Prelude.{MatchOption, MatchResult};
ghost use Rattle.std.specs.Bool.{⊤};
ghost use Rattle.theory.specs.Answer.{answer, first_broken, done};
ghost use Rattle.theory.specs.Lists.{lowest};
ghost use Rattle.theory.specs.Mesh.{below_at, paired_at, glued_at, apart_at, reached_at, mesh_rungs};
ghost use Rattle.mesh.specs.Later.{later_rungs};
ghost use Rattle.mesh.specs.Search.{across, touch, spread, search_at, Exact};

use corner::{next_of, previous_of};
use lent::{Tables, clear, push};
use ring::{Glued, Paired, first_unringed};
use theory::{Counts, Refusal, Rule};

// Number 9: the first corner whose vertex number is not below v.
fn first_over(vs: &[u32], v: u32) -> Option<usize>
    ensures { result ≡ lowest (below_at vs.now v) (length vs.now) }
{
    vs.iter().position(|&u| v <= u)
}

// Number 10 at corner c.
#[tactic(auto, unfolding(theory::specs::Mesh::paired_at))]
fn paired_at(os: &[u32], c: usize) -> bool
    requires { c < length os.now }
    ensures { result ≡ paired_at os.now c }
{
    let d = os[c] as usize;
    d < os.len() && os[d] as usize == c && d != c
}

fn first_unpaired(os: &[u32]) -> Option<usize>
    ensures { result ≡ lowest (paired_at os.now) (length os.now) }
{
    (0..os.len()).find(|&c| !paired_at(os, c))
}

// Number 11 at corner c.
#[tactic(auto, unfolding(theory::specs::Mesh::glued_at, theory::specs::Corner::next, theory::specs::Corner::previous))]
fn glued_at(pairs: &Paired, c: usize) -> bool
    requires { c < length pairs.now.vs.now }
    ensures { result ≡ glued_at pairs.now.vs.now pairs.now.os.now c }
{
    let vs = pairs.vs;
    let d = pairs.opposite(c);
    vs[next_of(c)] == vs[previous_of(d)] && vs[previous_of(c)] == vs[next_of(d)]
}

fn first_unglued(pairs: &Paired) -> Option<usize>
    ensures { result ≡ lowest (glued_at pairs.now.vs.now pairs.now.os.now) (length pairs.now.vs.now) }
{
    (0..pairs.vs.len()).find(|&c| !glued_at(pairs, c))
}

// Number 12 at triangle k.
#[tactic(auto, unfolding(theory::specs::Mesh::apart_at))]
fn apart_at(vs: &[u32], k: usize) -> bool
    requires { 3 * k + 2 < length vs.now }
    ensures { result ≡ apart_at vs.now k }
{
    let (a, b, d) = (vs[3 * k], vs[3 * k + 1], vs[3 * k + 2]);
    a != b && b != d && d != a
}

fn first_doubled(vs: &[u32]) -> Option<usize>
    ensures { result ≡ lowest (apart_at vs.now) (length vs.now / 3) }
{
    (0..vs.len() / 3).find(|&k| !apart_at(vs, k))
}

// Triangle x is seen, and waits on the stack if it was not seen before: where the stack's top stands then.
// Tables and top are parameters, not a struct: a call keeps a slice's length, but a field's only by more clauses.
#[tactic(auto, using(crate::proofs::SearchTables::meeting))]
fn meet(seen: &mut [u32], stack: &mut [u32], p: usize, x: usize) -> usize
    requires triangle { x < length seen.old }
    requires few { length seen.old < 4294967296 }
    requires room { (0 < p) × (p ≤ length stack.old) }
    ensures top { (p ≤ result + 1) × (result ≤ p) }
    ensures met { search_at seen.new stack.new result ≡ touch x (search_at seen.old stack.old p) }
{
    if seen[x] != 0 {
        return p;
    }
    seen[x] = 1;
    push(stack, p, x as u32)
}

// The triangle across corner j of triangle k.
fn beyond(pairs: &Paired, k: usize, j: usize) -> usize
    requires { (j < 3) × (k < length pairs.now.os.now / 3) }
    ensures { (result ≡ across pairs.now.os.now k j) × (result < length pairs.now.os.now / 3) }
{
    pairs.opposite(3 * k + j) / 3
}

// The top of the stack is taken, and its three neighbours are met.
fn spread_at(pairs: &Paired, seen: &mut [u32], stack: &mut [u32], p: usize) -> usize
    requires triangles { length seen.old ≡ length pairs.now.os.now / 3 }
    requires room { (3 ≤ p) × (p < length stack.old) }
    requires triangle { get_or stack.old p 0 < length seen.old }
    ensures top { result ≤ length stack.new }
    ensures met { search_at seen.new stack.new result
        ≡ spread pairs.now.os.now (get_or stack.old p 0) (search_at seen.old stack.old (p + 1)) }
{
    let k = stack[p] as usize;
    let p = meet(seen, stack, p + 1, beyond(pairs, k, 0));
    let p = meet(seen, stack, p, beyond(pairs, k, 1));
    meet(seen, stack, p, beyond(pairs, k, 2))
}

// Marks each triangle that is reached from triangle a, in a table of zeros. A `while`, since the stack grows while it
// is emptied.
#[tactic(auto, using(crate::proofs::SearchTables::waiting))]
fn mark_reached(pairs: &Paired, seen: &mut [u32], stack: &mut [u32], a: usize)
    requires triangles { length seen.old ≡ length pairs.now.os.now / 3 }
    requires triangle { a < length seen.old }
    requires room { length seen.old + 3 ≤ length stack.old }
    requires clear { seen.old ≡ replicate (length seen.old) 0 }
    ensures { Exact pairs.now.os.now a seen.new }
{
    let end = stack.len();
    let mut p = meet(seen, stack, end, a);
    while p < stack.len() {
        p = spread_at(pairs, seen, stack, p);
    }
}

// Number 14: the first triangle that is not reached from the gate's.
fn first_unreached(pairs: &Paired, g: usize, work: &mut [u32]) -> Option<usize>
    requires gate { g < length pairs.now.os.now }
    requires room { length pairs.now.os.now + 3 ≤ length work.old }
    ensures { let t = length pairs.now.os.now / 3 in result ≡ lowest (reached_at pairs.now.os.now t g) t }
{
    let (seen, stack) = work.split_at_mut(pairs.os.len() / 3);
    clear(seen);
    mark_reached(pairs, seen, stack, g / 3);
    seen.iter().position(|&x| x == 0)
}

// A rule that holds at every place, or its refusal at the first place that breaks it.
fn holds(rule: Rule, broken: Option<usize>) -> Result<(), Refusal>
    requires { MatchOption broken ⊤ (λ k. k < 4294967296) }
    ensures { MatchResult result (λ _. broken ≡ None) (λ e. (e.rule ≡ rule) × (broken ≡ Some e.place)) }
{
    match broken {
        Some(k) => Err(rule.at(k as u32)),
        None => Ok(()),
    }
}

// Numbers 13 to 15 of tables that passed those before. The room in the work space stays a clause, here and in sweep: a
// type that held it would keep the lent space beside the tables that it is measured by.
#[tactic(auto, using(crate::proofs::Judging::judging))]
fn judge_whole(s: &Glued, v: u32, g: u32, work: &mut [u32]) -> Result<Counts, Refusal>
    requires gate { g < length s.now.vs.now }
    requires room { 12 * (length s.now.vs.now / 3) ≤ length work.old }
    ensures { answer result
        ≡ first_broken (later_rungs s.now.vs.now s.now.os.now v g) (done (length s.now.vs.now / 3) v) }
{
    let t = s.vs.len() / 3;
    holds(Rule::Ring, first_unringed(s, v, work))?;
    holds(Rule::Reach, first_unreached(&s.paired(), g as usize, work))?;
    if t + 4 != 2 * v as usize {
        return Err(Rule::Handle.at(0));
    }
    Ok(Counts { t: t as u32, v })
}

// Numbers 8 to 15 of tables of a right shape, or done. Only refused tables come here from sweep.
#[cold]
#[tactic(auto, using(crate::proofs::Judging::judging))]
pub fn judge_mesh(tables: &Tables, v: u32, g: u32, work: &mut [u32]) -> Result<Counts, Refusal>
    requires { 12 * (length tables.now.vs.now / 3) ≤ length work.old }
    ensures { answer result
        ≡ first_broken (mesh_rungs tables.now.vs.now tables.now.os.now v g) (done (length tables.now.vs.now / 3) v) }
{
    let Tables { vs, os } = *tables;
    if vs.len() <= g as usize {
        return Err(Rule::Gate.at(0));
    }
    holds(Rule::Vertex, first_over(vs, v))?;
    holds(Rule::Opposite, first_unpaired(os))?;
    holds(Rule::Edge, first_unglued(&Paired { vs, os }))?;
    holds(Rule::Twice, first_doubled(vs))?;
    judge_whole(&Glued { vs, os }, v, g, work)
}
