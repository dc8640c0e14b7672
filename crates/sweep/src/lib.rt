// A mesh is judged by one sweep over its triangles and by its walk: rules 8 to 12 and 15 hold in the sweep, and then
// the walk reaches every triangle and marks every vertex exactly where the mesh is accepted (theory: RingsFollow,
// Covered). Only where it is refused the rules are judged one by one, to name the number and the place.
#![tactic(auto)]

ghost use Rattle.std.specs.Prelude.{◌+◌, ◌*◌, ◌/◌, ◌<◌, ◌≤◌, length};
ghost use Rattle.theory.specs.Answer.{answer};
ghost use Rattle.walk.specs.Table.{AllOn};
ghost use Rattle.sweep.specs.Sound.{Says, FacesAt, SoundAt, Sound};
ghost use Rattle.sweep.specs.Judged.{Walks, Judges};

use corner::previous_of;
use lent::Tables;
use mesh::judge_mesh;
use theory::{Counts, Refusal};
use walk::trace;

// Rules 10 and 11 at corner c: its opposite faces back, and the corner before that one has the vertex a. The tables come
// by value, so that the loop keeps their places in registers.
fn faces_at(tables: Tables, c: usize, a: u32) -> bool
    requires { c < length tables.os.now }
    ensures { Says (FacesAt tables.entry.vs.now tables.entry.os.now c a) result }
{
    let os = tables.os;
    let d = os[c] as usize;
    if os.len() <= d {
        return false;
    }
    if os[d] as usize != c {
        return false;
    }
    tables.vs[previous_of(d)] == a
}

// Rules 9 to 12 at triangle k.
fn sound_at(tables: Tables, v: u32, k: usize) -> bool
    requires { k < length tables.vs.now / 3 }
    ensures { Says (SoundAt tables.entry.vs.now tables.entry.os.now v k) result }
{
    let a = tables.vs[3 * k];
    let b = tables.vs[3 * k + 1];
    let d = tables.vs[3 * k + 2];
    if v <= a || v <= b || v <= d || a == b || b == d || d == a {
        return false;
    }
    if !faces_at(tables, 3 * k, b) {
        return false;
    }
    if !faces_at(tables, 3 * k + 1, d) {
        return false;
    }
    faces_at(tables, 3 * k + 2, a)
}

// Rules 9 to 12 at every triangle.
fn sound(tables: Tables, v: u32) -> bool
    ensures { Says (Sound tables.entry.vs.now tables.entry.os.now v (length tables.entry.vs.now / 3)) result }
{
    (0..tables.count()).all(|k| sound_at(tables, v, k))
}

// The first n numbers of work are not 0.
fn all_on(work: &[u32], n: usize) -> bool
    requires { n ≤ length work.now }
    ensures { Says (AllOn n work.now) result }
{
    work[..n].iter().all(|&x| x != 0)
}

// Whether tables are an accepted mesh; then its walk is kept in work.
fn walks(tables: Tables, v: u32, g: u32, work: &mut [u32]) -> bool
    requires { 12 * (length tables.vs.now / 3) ≤ length work.old }
    ensures { Walks result tables.entry.vs.now tables.entry.os.now v g work.new }
{
    let t = tables.count();
    if tables.vs.len() <= g as usize {
        return false;
    }
    let twice = 2 * (v as usize);
    if t + 4 != twice {
        return false;
    }
    if !sound(tables, v) {
        return false;
    }
    trace(tables.vs, tables.os, v, g, work);
    all_on(work, t + v as usize)
}

// Numbers 8 to 15 of tables of a right shape, or done with the walk kept in work.
pub fn judge(tables: &Tables, v: u32, g: u32, work: &mut [u32]) -> Result<Counts, Refusal>
    requires { 12 * (length tables.now.vs.now / 3) ≤ length work.old }
    ensures { Judges tables.now.vs.now tables.now.os.now v g (answer result) work.new }
{
    if walks(*tables, v, g, work) {
        return Ok(Counts {
            t: tables.count() as u32,
            v,
        });
    }
    judge_mesh(tables, v, g, work)
}
