// The mesh of a record as text: the function that the program unpack calls, and the lines that it prints.
#![tactic(auto)]

ghost use Rattle.std.specs.Prelude.{◌≡◌, ◌+◌, ◌*◌, ◌≤◌, ◌<◌, length};
ghost use Rattle.text.specs.Put.{Writes};
ghost use Rattle.theory.specs.Answer.{number};
ghost use Rattle.print.specs.Printed.{numbered, three, counts_line, triangle_line, triangle_lines, refusal_line};
ghost use Rattle.print.specs.Unpack.{Unpacks, ready};

use record::Last;
use text::Writer;
use theory::{Refusal, Rule};

// Prints what a record holds, or its refusal, into out; answers how many bytes. The tables have 2,400 numbers each, the
// work space 9,600 and the buffer at least 66,446 bytes; where they have not, nothing is printed or touched.
#[tactic(auto, using(crate::proofs::UnpackLaws::ready_room))]
pub fn unpack(
    bytes: &[u8],
    vs: &mut [u32],
    os: &mut [u32],
    work: &mut [u32],
    out: &mut [u8],
) -> usize
    ensures { Unpacks bytes.now vs.old os.old work.old out.old result vs.new os.new work.new out.new }
{
    if !is_ready(vs.len(), os.len(), work.len(), out.len()) {
        return 0;
    }
    let mut w = Writer::new(out);
    if 2048 < bytes.len() {
        write_refusal(&mut w, Rule::Room.at(0));
        return w.size();
    }
    match record::read_record(bytes, vs, os, work) {
        Ok(last) => {
            write_counts(&mut w, last);
            write_triangles(&mut w, vs, os, last.counts.t);
        }
        Err(refusal) => write_refusal(&mut w, refusal),
    }
    w.size()
}

#[tactic(auto, unfolding(crate::specs::Unpack::ready))]
fn is_ready(n: usize, m: usize, k: usize, l: usize) -> bool
    ensures { result ≡ ready n m k l }
{
    n == 2400 && m == 2400 && k == 9600 && 66446 <= l
}

// The lines of the first t triangles, each of at most 83 bytes. The room that is left stays a clause of each writer,
// since each takes another number of bytes.
fn write_triangles(w: &mut Writer, vs: &[u32], os: &[u32], t: u32)
    requires tables { (3 * t ≤ length vs.now) × (3 * t ≤ length os.now) }
    requires room { w.old.at + 83 * t ≤ length w.old.out.now }
    ensures { Writes w.old (triangle_lines vs.now os.now t) w.new }
{
    for k in 0..t {
        write_triangle(w, vs, os, k);
    }
}

// k=0 v=2,0,1 o=7,3,10, at most 83 bytes
fn write_triangle(w: &mut Writer, vs: &[u32], os: &[u32], k: u32)
    requires tables { (3 * k + 2 < length vs.now) × (3 * k + 2 < length os.now) }
    requires room { w.old.at + 83 ≤ length w.old.out.now }
    ensures short { w.new.at ≤ w.old.at + 83 }
    ensures line { Writes w.old (triangle_line vs.now os.now k) w.new }
{
    let i = 3 * (k as usize);
    write_numbered(w, b"k=", k);
    write_three(w, b" v=", vs[i], vs[i + 1], vs[i + 2]);
    write_three(w, b" o=", os[i], os[i + 1], os[i + 2]);
    w.bytes(b"\n");
}

// tri=4 ver=4 gate=7, at most 46 bytes
fn write_counts(w: &mut Writer, last: Last)
    requires { w.old.at + 46 ≤ length w.old.out.now }
    ensures short { w.new.at ≤ w.old.at + 46 }
    ensures line { Writes w.old (counts_line last.counts.t last.counts.v last.gate) w.new }
{
    write_numbered(w, b"tri=", last.counts.t);
    write_numbered(w, b" ver=", last.counts.v);
    write_numbered(w, b" gate=", last.gate);
    w.bytes(b"\n");
}

// refused=6 place=1, at most 36 bytes
fn write_refusal(w: &mut Writer, refusal: Refusal)
    requires { w.old.at + 36 ≤ length w.old.out.now }
    ensures { Writes w.old (refusal_line (number refusal.rule) refusal.place) w.new }
{
    write_numbered(w, b"refused=", refusal.rule.into());
    write_numbered(w, b" place=", refusal.place);
    w.bytes(b"\n");
}

// A key, and three numbers with commas between them.
fn write_three(w: &mut Writer, key: &[u8], a: u32, b: u32, d: u32)
    requires { w.old.at + length key.now + 32 ≤ length w.old.out.now }
    ensures short { w.new.at ≤ w.old.at + length key.now + 32 }
    ensures text { Writes w.old (three key.now a b d) w.new }
{
    write_numbered(w, key, a);
    write_numbered(w, b",", b);
    write_numbered(w, b",", d);
}

// A key and a number, which has at most 10 digits.
#[tactic(auto, using(text::proofs::DecimalLaws::decimal_word))]
fn write_numbered(w: &mut Writer, key: &[u8], n: u32)
    requires { w.old.at + length key.now + 10 ≤ length w.old.out.now }
    ensures short { w.new.at ≤ w.old.at + length key.now + 10 }
    ensures text { Writes w.old (numbered key.now n) w.new }
{
    w.bytes(key);
    w.decimal(n);
}
