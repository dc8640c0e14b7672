// Rule 13: each vertex has a corner, and swinging from its first corner meets all of them. Linear, for tables and
// vertex counts of every kind: the corners of each vertex are counted, and a ring is followed no further than it has
// corners.
#![tactic(auto)]

ghost use Rattle.std.specs.Prelude.{◌≡◌, ℕ, ◌+◌, ◌<◌, ◌≤◌, length, get_or};
ghost use Rattle.theory.specs.Lists.{lowest};
ghost use Rattle.theory.specs.Mesh.{ringed_at};
ghost use Rattle.theory.proofs.RingLaws.{away_for};
ghost use Rattle.ring.specs.Tally.{tallied, Tallied, Zeros};

mod surface;

use lent::clear_front;
pub use surface::{Glued, Paired};

// Corner c is counted at its vertex, and kept as the vertex's first corner so far. Both tables stand in the one work
// space that is lent, the second behind the first: specs/Tally speaks of that space as a whole.
#[tactic(auto, unfolding(crate::specs::Tally::tallied))]
fn tally(vs: &[u32], work: &mut [u32], c: usize)
    requires corner { c < length vs.now }
    requires few { length vs.now < 4294967296 }
    requires room { length vs.now + length vs.now ≤ length work.old }
    requires counts { (u : ℕ) → u < length vs.now → get_or work.old u 0 < length vs.now }
    ensures { work.new ≡ tallied vs.now c work.old }
{
    let u = vs[c] as usize;
    if u < vs.len() {
        work[u] += 1;
        work[vs.len() + u] = c as u32;
    }
}

// All corners, the last one first. The room in the work space stays a clause: it is measured by one table and written.
#[tactic(auto, using(crate::proofs::Tallies::tallying))]
fn tally_all(vs: &[u32], work: &mut [u32])
    requires few { length vs.now < 4294967296 }
    requires room { length vs.now + length vs.now ≤ length work.old }
    requires clear { Zeros (length vs.now) work.old }
    ensures { Tallied vs.now 0 work.new }
{
    for c in (0..vs.len()).rev() {
        tally(vs, work, c);
    }
}

// Corner c is not met again in fewer than k swings.
#[tactic(auto, using(crate::proofs::Turns::swinging))]
fn away_for(pairs: &Paired, c: usize, k: u32) -> bool
    requires { c < length pairs.now.os.now }
    ensures { result ≡ away_for pairs.now.os.now c k }
{
    let mut d = pairs.swing(c);
    for _ in 1..k {
        if d == c {
            return false;
        }
        d = pairs.swing(d);
    }
    true
}

// Rule 13 at vertex u, from the counts.
#[tactic(auto, using(crate::proofs::Turns::ring))]
fn ringed_at(s: &Glued, work: &[u32], u: usize) -> bool
    requires counted { Tallied s.now.vs.now 0 work.now }
    requires room { length s.now.vs.now + length s.now.vs.now ≤ length work.now }
    requires vertex { u < length s.now.vs.now }
    ensures { result ≡ ringed_at s.now.vs.now s.now.os.now u }
{
    let k = work[u];
    k != 0 && away_for(&s.paired(), work[s.vs.len() + u] as usize, k)
}

// The first vertex below v at which rule 13 fails; where vertices outnumber corners, it fails at one of them. The work
// space may hold anything.
pub fn first_unringed(s: &Glued, v: u32, work: &mut [u32]) -> Option<usize>
    requires { length s.now.vs.now + length s.now.vs.now ≤ length work.old }
    ensures { result ≡ lowest (ringed_at s.now.vs.now s.now.os.now) v }
{
    clear_front(work, s.vs.len());
    tally_all(s.vs, work);
    (0..v as usize).find(|&u| s.vs.len() <= u || !ringed_at(s, work, u))
}
