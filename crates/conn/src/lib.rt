// Connectivity of closed triangle meshes: which strings close, which tables are a mesh, and the way between them.
//
//     judge_string   judges a string                       theory/specs: Judge
//     read_string    tables from a string                  theory/specs: Tables
//     check_mesh     judges the tables of a mesh           theory/specs: Mesh
//     write_string   string and walk table of a mesh       theory/specs: Walk
//
// Each call answers every input and asks nothing of the caller. What it answers, and what it leaves in each lent table
// and in the work space, is one record of theory/specs/Calls; `answer` says which answer of document 01 a result is.
// The stepping rules are the methods of corner::Corner. Tables and buffers are lent one by one, as slices: document 01
// names that form.
#![tactic(auto)]

ghost use Rattle.std.specs.Prelude.{◌≡◌, ◌&&◌, leb};
ghost use Rattle.theory.specs.Answer.{answer};
ghost use Rattle.theory.specs.Calls.{Judges, Reads, Checks, Writes};
ghost use Rattle.conn.specs.Inner.{ReadRoom, ReadLetters, WriteRoom, WriteLetters};

use judge::{counts, judge_letters};
use lent::{Tables, clear, count_ok};
use sweep::judge;
use tables::{build, fold};
use theory::{Counts, Refusal, Rule};
use walk::spell_out;

// Whether three lengths are at least what is asked of them.
fn enough(a: usize, n: usize, b: usize, m: usize, w: usize, k: usize) -> bool
    ensures { result ≡ (leb a n && (leb b m && leb w k)) }
{
    a <= n && b <= m && w <= k
}

// Judges a string. Numbers 1 to 7, else done with its counts.
#[tactic(auto, using(crate::proofs::Outcomes::short_answer, crate::proofs::Outcomes::short_space))]
pub fn judge_string(letters: &[u8], work: &mut [u32]) -> Result<Counts, Refusal>
    ensures { Judges letters.now work.old (answer result) work.new }
{
    let t = letters.len();
    if !count_ok(t) {
        return Err(Rule::Count.at(0));
    }
    if work.len() < 12 * t {
        return Err(Rule::Room.at(0));
    }
    let judged = judge_letters(letters, work);
    clear(work);
    judged
}

// Reads a string into its vertex and neighbour tables, 3t entries each. Numbers 1 to 7.
pub fn read_string(
    letters: &[u8],
    vs: &mut [u32],
    os: &mut [u32],
    work: &mut [u32],
) -> Result<Counts, Refusal>
    ensures { Reads letters.now vs.old os.old work.old (answer result) vs.new os.new work.new }
{
    let t = letters.len();
    if !count_ok(t) {
        return Err(Rule::Count.at(0));
    }
    if !enough(3 * t, vs.len(), 3 * t, os.len(), 12 * t, work.len()) {
        return Err(Rule::Room.at(0));
    }
    read_letters(letters, vs, os, work)
}

// Checks 3 to 7, and the tables where they pass.
fn read_letters(
    letters: &[u8],
    vs: &mut [u32],
    os: &mut [u32],
    work: &mut [u32],
) -> Result<Counts, Refusal>
    requires { ReadRoom letters.now vs.old os.old work.old }
    ensures { ReadLetters letters.now vs.old os.old work.old (answer result) vs.new os.new work.new }
{
    if !fold(letters, work) {
        let judged = judge_letters(letters, work);
        clear(work);
        return judged;
    }
    let n = 3 * letters.len();
    build(letters, work, &mut vs[..n], &mut os[..n]);
    clear(work);
    Ok(counts(letters))
}

// Judges the tables of a mesh with v vertices from the gate corner. Numbers 1, 2, 8 to 15.
pub fn check_mesh(
    vs: &[u32],
    os: &[u32],
    v: u32,
    gate: u32,
    work: &mut [u32],
) -> Result<Counts, Refusal>
    ensures { Checks vs.now os.now v gate work.old (answer result) work.new }
{
    let Some(tables) = Tables::new(vs, os) else {
        return Err(Rule::Count.at(0));
    };
    if work.len() < 12 * tables.count() {
        return Err(Rule::Room.at(0));
    }
    let judged = judge(&tables, v, gate, work);
    clear(work);
    judged
}

// Writes the string and the walk table of a mesh from the gate corner, t entries each. Numbers 1, 2, 8 to 15.
pub fn write_string(
    vs: &[u32],
    os: &[u32],
    v: u32,
    gate: u32,
    letters: &mut [u8],
    walk: &mut [u32],
    work: &mut [u32],
) -> Result<Counts, Refusal>
    ensures { Writes vs.now os.now v gate letters.old walk.old work.old (answer result) letters.new walk.new work.new }
{
    let Some(tables) = Tables::new(vs, os) else {
        return Err(Rule::Count.at(0));
    };
    let t = tables.count();
    if !enough(t, letters.len(), t, walk.len(), 12 * t, work.len()) {
        return Err(Rule::Room.at(0));
    }
    write_letters(&tables, v, gate, letters, walk, work)
}

// Checks 8 to 15, and the walk where they pass.
fn write_letters(
    tables: &Tables,
    v: u32,
    gate: u32,
    letters: &mut [u8],
    walk: &mut [u32],
    work: &mut [u32],
) -> Result<Counts, Refusal>
    requires { WriteRoom tables.now.vs.now letters.old walk.old work.old }
    ensures { WriteLetters tables.now.vs.now tables.now.os.now v gate letters.old walk.old work.old
        (answer result) letters.new walk.new work.new }
{
    let found = judge(tables, v, gate, work);
    if found.is_ok() {
        spell_out(work, tables.count(), letters, walk);
    }
    clear(work);
    found
}
