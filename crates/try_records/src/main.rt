// Records that the reader takes and refuses, each printed as unpack prints it; and records that are written and read
// back.
#![tactic(auto)]

use std::io;
use trial::show;

fn main(rt: HostRuntime) -> io::Result<()> {
    small(&rt)?;
    more(&rt)?;
    long(&rt)?;
    large(&rt)
}

// Lines and numbers.
fn small(rt: &impl Print) -> io::Result<()> {
    let cases: [(&[u8], &[u8]); 18] = [
        (
            b"the record of document 01",
            b"form=1\ntri=4\ngate=7\nsym=CCRE\n",
        ),
        (b"nothing", b""),
        (b"form line missing", b"tri=4\ngate=7\nsym=CCRE\n"),
        (b"tri line missing", b"form=1\ngate=7\nsym=CCRE\n"),
        (b"gate line missing", b"form=1\ntri=4\nsym=CCRE\n"),
        (b"sym line missing", b"form=1\ntri=4\ngate=7\n"),
        (b"last newline missing", b"form=1\ntri=4\ngate=7\nsym=CCRE"),
        (
            b"a byte after the record",
            b"form=1\ntri=4\ngate=7\nsym=CCRE\n\n",
        ),
        (
            b"CR before LF on a number line",
            b"form=1\r\ntri=4\r\ngate=7\r\nsym=CCRE\r\n",
        ),
        (
            b"CR before LF on the sym line",
            b"form=1\ntri=4\ngate=7\nsym=CCRE\r\n",
        ),
        (
            b"leading zero of form",
            b"form=01\ntri=4\ngate=7\nsym=CCRE\n",
        ),
        (
            b"leading zero of tri",
            b"form=1\ntri=04\ngate=7\nsym=CCRE\n",
        ),
        (
            b"leading zero of gate",
            b"form=1\ntri=4\ngate=00\nsym=CCRE\n",
        ),
        (b"gate 0", b"form=1\ntri=4\ngate=0\nsym=CCRE\n"),
        (b"no digit", b"form=1\ntri=\ngate=7\nsym=CCRE\n"),
        (b"a minus", b"form=1\ntri=4\ngate=-7\nsym=CCRE\n"),
        (
            b"gate of 7 digits",
            b"form=1\ntri=4\ngate=9999999\nsym=CCRE\n",
        ),
        (
            b"gate of 8 digits",
            b"form=1\ntri=4\ngate=10000000\nsym=CCRE\n",
        ),
    ];
    each(rt, &cases)
}

// Values and letters.
fn more(rt: &impl Print) -> io::Result<()> {
    let cases: [(&[u8], &[u8]); 16] = [
        (
            b"tri of 7 digits",
            b"form=1\ntri=9999999\ngate=7\nsym=CCRE\n",
        ),
        (b"form 0", b"form=0\ntri=4\ngate=7\nsym=CCRE\n"),
        (b"form 2", b"form=2\ntri=4\ngate=7\nsym=CCRE\n"),
        (b"form 2 and no sym line", b"form=2\ntri=4\ngate=7\n"),
        (b"tri 0", b"form=1\ntri=0\ngate=7\nsym=\n"),
        (
            b"tri odd, before the gate",
            b"form=1\ntri=5\ngate=99\nsym=CCRE\n",
        ),
        (b"tri 65538", b"form=1\ntri=65538\ngate=7\nsym=CCRE\n"),
        (
            b"gate 11, the last corner",
            b"form=1\ntri=4\ngate=11\nsym=CCRE\n",
        ),
        (
            b"gate 12, 3 times tri, before the letters",
            b"form=1\ntri=4\ngate=12\nsym=CCR\n",
        ),
        (b"a letter too few", b"form=1\ntri=4\ngate=7\nsym=CCR\n"),
        (b"no letters", b"form=1\ntri=4\ngate=7\nsym=\n"),
        (
            b"a letter that is none",
            b"form=1\ntri=4\ngate=7\nsym=CCxE\n",
        ),
        (b"an unfinished word", b"form=1\ntri=4\ngate=7\nsym=CCSE\n"),
        (
            b"letters behind the word",
            b"form=1\ntri=4\ngate=7\nsym=CERE\n",
        ),
        (b"a pinched loop", b"form=1\ntri=4\ngate=7\nsym=CCCE\n"),
        (b"a wide loop", b"form=1\ntri=2\ngate=5\nsym=LE\n"),
    ];
    each(rt, &cases)
}

fn each(rt: &impl Print, cases: &[(&[u8], &[u8])]) -> io::Result<()> {
    for (label, bytes) in cases {
        unpack(rt, label, bytes)?;
    }
    Ok(())
}

// 2,048 bytes are judged, 2,049 are not.
fn long(rt: &impl Print) -> io::Result<()> {
    let bytes = [120u8; 2049];
    unpack(rt, b"2048 bytes", &bytes[..2048])?;
    unpack(rt, b"2049 bytes", &bytes)
}

// Fans of 800 and 802 triangles, written and read back: k Cs, k - 1 Rs and an E.
fn large(rt: &impl Print) -> io::Result<()> {
    let mut fan = [b'R'; 800];
    fan[..400].fill(b'C');
    fan[799] = b'E';
    written(rt, b"800 triangles", &fan, 2399)?;
    written(rt, b"800 triangles and gate 2400", &fan, 2400)?;
    written(rt, b"799 letters", &fan[1..], 0)?;
    fan[0] = b'L';
    written(rt, b"800 letters that do not close", &fan, 0)?;
    let mut wide = [b'R'; 802];
    wide[..401].fill(b'C');
    wide[801] = b'E';
    written(rt, b"802 triangles", &wide, 0)
}

// What unpack prints of some bytes.
fn unpacked(bytes: &[u8], out: &mut [u8]) -> usize {
    let mut vs = [0u32; 2400];
    let mut os = [0u32; 2400];
    let mut work = [0u32; 9600];
    print::unpack(bytes, &mut vs, &mut os, &mut work, out)
}

// The same behind a label. Its array is as long as that of `first_line`: in one frame they would want the stack twice.
#[inline(never)]
fn unpack(rt: &impl Print, label: &[u8], bytes: &[u8]) -> io::Result<()> {
    let mut out = [0u8; 66446];
    let n = unpacked(bytes, &mut out);
    rt.write_all(label)?;
    rt.write_all(b":\n")?;
    write_first(rt, &out, n)
}

fn write_first(rt: &impl Print, out: &[u8], n: usize) -> io::Result<()> {
    match out.get(..n) {
        Some(text) => rt.write_all(text),
        None => Ok(()),
    }
}

// Writes a record, prints the answer, and unpacks what was written: its first line.
fn written(rt: &impl Print, label: &[u8], letters: &[u8], gate: u32) -> io::Result<()> {
    let mut text = [0u8; 1024];
    let mut work = [0u32; 9624];
    let r = record::write_record(letters, gate, &mut text, &mut work);
    let length = r.map_or(0, |written| written.length);
    rt.write_all(label)?;
    rt.write_all(b":")?;
    show(rt, r.map(|written| written.counts))?;
    println!(rt; " length={length}")?;
    match text.get(..length as usize) {
        Some(bytes) => first_line(rt, bytes),
        None => Ok(()),
    }
}

fn first_line(rt: &impl Print, bytes: &[u8]) -> io::Result<()> {
    let mut out = [0u8; 66446];
    unpacked(bytes, &mut out);
    write_first(rt, &out, text::up_to(&out, b'\n'))?;
    rt.write_all(b"\n")
}
