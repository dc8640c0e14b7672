// What was asked, on the code: each function calls public functions of the parts and nothing else of them, and its
// contract is the demand, proved from their promises alone. What was asked of the definitions is in proofs/Demands.
// Tables and buffers are lent one by one, as the calls are lent them (document 01).
#![tactic(auto)]

ghost use Rattle.theory.specs.Answer.{answer};
ghost use Rattle.theory.specs.Calls.{write_answer};
ghost use Rattle.record.specs.Calls.{opened_of, packed_of};
ghost use Rattle.promises.specs.Demands.{Returned, ReadBack, Compared, RecordReturned};
ghost use Rattle.std.specs.Prelude.{◌≡◌, length};

use conn::{read_string, write_string};
use record::{Last, Sym, Text, read_head, read_record, write_record};
use theory::{Counts, Refusal};

// What two calls answered, one after the other; where the first is refused, the second is not made and the refusal
// stands in both places.
#[derive(Clone, Copy, Debug, PartialEq, Eq)]
pub struct Both {
    pub first: Result<Counts, Refusal>,
    pub second: Result<Counts, Refusal>,
}

// Demand 2: reading a string and writing it from corner 0 returns that string.
pub fn read_write(
    s: &[u8],
    vs: &mut [u32],
    os: &mut [u32],
    letters: &mut [u8],
    walk: &mut [u32],
    work: &mut [u32],
) -> Both
    ensures { Returned s.now vs.old os.old letters.old walk.old work.old
        (answer result.first) (answer result.second) letters.new walk.new }
{
    let first = read_string(s, vs, os, work);
    let Ok(counts) = first else {
        return Both {
            first,
            second: first,
        };
    };
    let n = 3 * s.len();
    let second = write_string(&vs[..n], &os[..n], counts.v, 0, letters, walk, work);
    Both { first, second }
}

// Demand 2: writing a mesh and reading it returns the mesh, renumbered by the walk table.
pub fn write_read(
    vs: &[u32],
    os: &[u32],
    v: u32,
    gate: u32,
    letters: &mut [u8],
    walk: &mut [u32],
    vs2: &mut [u32],
    os2: &mut [u32],
    work: &mut [u32],
) -> Both
    ensures { ReadBack vs.now os.now v gate letters.old walk.old vs2.old os2.old work.old
        (answer result.first) (answer result.second) walk.new vs2.new os2.new }
{
    let first = write_string(vs, os, v, gate, letters, walk, work);
    if first.is_err() {
        return Both {
            first,
            second: first,
        };
    }
    let t = vs.len() / 3;
    let second = read_string(&letters[..t], vs2, os2, work);
    Both { first, second }
}

// What two calls answered, and whether both wrote one string: a yes or no, and no where one of them is refused.
#[derive(Clone, Copy, Debug, PartialEq, Eq)]
pub struct Alike {
    pub first: Result<Counts, Refusal>,
    pub second: Result<Counts, Refusal>,
    pub same: bool,
}

// Demand 3: the strings of two meshes are equal exactly when a renumbering carries one onto the other, gate to gate; it
// is the only one, and the two walk tables show it.
pub fn same_mesh(
    vs: &[u32],
    os: &[u32],
    v: u32,
    gate: u32,
    vs2: &[u32],
    os2: &[u32],
    v2: u32,
    gate2: u32,
    letters: &mut [u8],
    walk: &mut [u32],
    letters2: &mut [u8],
    walk2: &mut [u32],
    work: &mut [u32],
) -> Alike
    ensures first { answer result.first
        ≡ write_answer vs.now os.now v gate (length letters.old) (length walk.old) (length work.old) }
    ensures second { answer result.second
        ≡ write_answer vs2.now os2.now v2 gate2 (length letters2.old) (length walk2.old) (length work.old) }
    ensures compared { Compared vs.now os.now v gate vs2.now os2.now v2 gate2
        (answer result.first) (answer result.second) result.same walk.new walk2.new }
{
    let first = write_string(vs, os, v, gate, letters, walk, work);
    let second = write_string(vs2, os2, v2, gate2, letters2, walk2, work);
    if first.is_err() || second.is_err() {
        return Alike {
            first,
            second,
            same: false,
        };
    }
    let t = vs.len() / 3;
    let t2 = vs2.len() / 3;
    let same = &letters[..t] == &letters2[..t2];
    Alike {
        first,
        second,
        same,
    }
}

// What reading a record answered, and writing it again; where it is refused, nothing is written and the refusal stands
// in both places.
#[derive(Clone, Copy, Debug, PartialEq, Eq)]
pub struct Again {
    pub opened: Result<Last, Refusal>,
    pub packed: Result<Text, Refusal>,
}

// Demand 2 for records: a record that is read, and its string and gate written again, comes back byte for byte.
pub fn record_again(
    bytes: &[u8],
    vs: &mut [u32],
    os: &mut [u32],
    text: &mut [u8],
    work: &mut [u32],
) -> Again
    ensures { RecordReturned bytes.now vs.old os.old work.old text.old
        (opened_of result.opened) (packed_of result.packed) text.new }
{
    let head = read_head(bytes);
    let opened = read_record(bytes, vs, os, work);
    let Sym { start, len, .. } = match head {
        Ok(sym) => sym,
        Err(refusal) => {
            return Again {
                opened,
                packed: Err(refusal),
            };
        }
    };
    let packed = match opened {
        Ok(last) => write_record(&bytes[start..start + len], last.gate, text, work),
        Err(refusal) => Err(refusal),
    };
    Again { opened, packed }
}
