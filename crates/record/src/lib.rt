// The last record: read with its string's tables, and written from a string and a gate. Tables and buffers are lent
// one by one, as slices: document 01 names that form.
#![tactic(auto)]

ghost use Rattle.std.specs.Prelude.{◌≡◌, MatchResult};
ghost use Rattle.text.specs.Put.{Room, Writes};
ghost use Rattle.theory.specs.Answer.{checked, done, first_broken};
ghost use Rattle.record.specs.Record.{record_text};
ghost use Rattle.record.specs.Lines.{value_rungs};
ghost use Rattle.record.specs.Calls.{Opens, Packs, opened_of, packed_of, room, size_rungs};
ghost use Rattle.record.specs.Head.{Malformed, Numbered, head_in, head_of};

use text::Writer;
use theory::{Counts, Refusal, Rule};

// A last as its record has it: the counts of its mesh, and the gate.
#[derive(Clone, Copy, Debug, PartialEq, Eq)]
pub struct Last {
    pub counts: Counts,
    pub gate: u32,
}

// A record that was written: the counts of its string, and the bytes of its text.
#[derive(Clone, Copy, Debug, PartialEq, Eq)]
pub struct Text {
    pub counts: Counts,
    pub length: u32,
}

// The gate of a record, and where its letters stand: at bytes[start..start + len]. Two numbers and no slice, since
// `head_of` answers them.
#[derive(Clone, Copy, Debug, PartialEq, Eq)]
pub struct Sym {
    pub gate: u32,
    pub start: usize,
    pub len: usize,
}

// ---- reading

// Reads a record and its string's tables. Its refusals are 16, 17, 1, 8, 18, 2, 3 to 7, in this order.
pub fn read_record(
    bytes: &[u8],
    vs: &mut [u32],
    os: &mut [u32],
    work: &mut [u32],
) -> Result<Last, Refusal>
    ensures { Opens bytes.now vs.old os.old work.old (opened_of result) vs.new os.new work.new }
{
    let Sym { gate, start, len } = read_head(bytes)?;
    let counts = conn::read_string(&bytes[start..start + len], vs, os, work)?;
    Ok(Last { counts, gate })
}

// Reads a record up to its letters.
#[tactic(auto, using(crate::proofs::HeadSteps::steps))]
pub fn read_head(bytes: &[u8]) -> Result<Sym, Refusal>
    ensures { head_in result ≡ head_of bytes.now }
{
    let (form, rest) = number_at(0, bytes, b"form=")?;
    let (tri, rest) = number_at(1, rest, b"tri=")?;
    let (gate, rest) = number_at(2, rest, b"gate=")?;
    let sym = text::keyed_size(rest, b"sym=").ok_or(Rule::Line.at(3))?;
    if sym != rest.len() {
        return Err(Rule::Line.at(4));
    }
    let start = bytes.len() - rest.len() + 4;
    let len = sym - 5;
    judge_values(form, tri, gate, len)?;
    Ok(Sym { gate, start, len })
}

// The number of line i, with which a text begins, and the text behind that line.
#[tactic(auto, using(crate::proofs::HeadSteps::numbers))]
fn number_at<'a>(i: u32, bytes: &'a [u8], key: &[u8]) -> Result<(u32, &'a [u8]), Refusal>
    ensures { MatchResult result (λ a. Numbered key.now bytes.now a.0 a.1.now) (λ e. Malformed key.now bytes.now i e) }
{
    let line = text::number_line(bytes, key).ok_or(Rule::Line.at(i))?;
    Ok((line.value, &bytes[line.size..]))
}

// 17, 1, 8, 18.
#[tactic(auto, using(crate::proofs::HeadLaws::values))]
fn judge_values(form: u32, t: u32, gate: u32, count: usize) -> Result<(), Refusal>
    ensures { checked result ≡ first_broken (value_rungs form t gate count) (done 0 0) }
{
    if form != 1 {
        return Err(Rule::Form.at(0));
    }
    if !lent::count_ok(t as usize) {
        return Err(Rule::Count.at(0));
    }
    if 3 * t <= gate {
        return Err(Rule::Gate.at(0));
    }
    if count != t as usize {
        return Err(Rule::Length.at(0));
    }
    Ok(())
}

// ---- writing

// Writes the record of a string and a gate. Its refusals are 1, 8, 2, 3 to 7, in this order.
pub fn write_record(
    letters: &[u8],
    gate: u32,
    text: &mut [u8],
    work: &mut [u32],
) -> Result<Text, Refusal>
    ensures { Packs letters.now gate text.old work.old (packed_of result) text.new work.new }
{
    judge_sizes(letters, gate, text, work)?;
    let counts = conn::judge_string(letters, work)?;
    let mut w = Writer::new(text);
    write_text(&mut w, letters.len() as u32, gate, letters);
    Ok(Text {
        counts,
        length: w.size() as u32,
    })
}

// 1, 8, 2.
#[tactic(auto, using(crate::proofs::PackLaws::sizes))]
fn judge_sizes(letters: &[u8], gate: u32, text: &[u8], work: &[u32]) -> Result<(), Refusal>
    ensures { checked result
        ≡ first_broken (size_rungs letters.now gate (room letters.now gate text.now work.now)) (done 0 0) }
{
    let n = letters.len();
    if !lent::count_ok(n) {
        return Err(Rule::Count.at(0));
    }
    let t = n as u32;
    if 3 * t <= gate {
        return Err(Rule::Gate.at(0));
    }
    let size = 23 + text::decimal_length(t) + text::decimal_length(gate) + n;
    if text.len() < size || work.len() < 12 * n {
        return Err(Rule::Room.at(0));
    }
    Ok(())
}

// Writes a record's text.
#[tactic(auto, using(crate::proofs::Pieces::record_length))]
fn write_text(w: &mut Writer, t: u32, gate: u32, letters: &[u8])
    requires { Room w.old (record_text t gate letters.now) }
    ensures { Writes w.old (record_text t gate letters.now) w.new }
{
    w.bytes(b"form=1\ntri=");
    w.decimal(t);
    w.bytes(b"\ngate=");
    w.decimal(gate);
    w.bytes(b"\nsym=");
    w.bytes(letters);
    w.bytes(b"\n");
}
