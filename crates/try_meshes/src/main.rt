// Meshes run: refusals with the work space looked at, every gate of every string of 2, 4 and 6 letters, and the
// largest.
//
// The work space is all nines before a call: how many nines and zeros it has after it.
#![tactic(auto)]

ghost use Rattle.std.specs.Prelude.{◌≤◌};

mod meshes;

use meshes::{M1, M12, Mesh, TORUS};
use std::io;
use trial::{NONE, equal, filled, plus, rise, show, space, spell};

fn check_in(rt: &impl Print, name: &str, mesh: Mesh, work: &mut [u32]) -> io::Result<()> {
    rt.print(name)?;
    show(rt, mesh.check(work))?;
    space(rt, work)
}

fn check(rt: &impl Print, name: &str, mesh: Mesh) -> io::Result<()> {
    let mut work = [NONE; 170];
    check_in(rt, name, mesh, &mut work)
}

// Sizes: 1 and 2.
fn sizes(rt: &impl Print) -> io::Result<()> {
    check(rt, "M1", M1)?;
    let mut work = [NONE; 23];
    check_in(rt, "M1, work space of 23", M1, &mut work)?;
    let five = M1.with_vs(&M1.vs[..5]);
    let three = M1.with_vs(&M1.vs[..3]);
    for (name, mesh) in [
        ("M1, five entries of V", five),
        ("M1, five entries each", five.with_os(&M1.os[..5])),
        ("M1, three entries each", three.with_os(&M1.os[..3])),
        ("no entries", M1.with_vs(&[]).with_os(&[])),
    ] {
        check(rt, name, mesh)?;
    }
    Ok(())
}

// Gates and vertex counts.
fn counts(rt: &impl Print) -> io::Result<()> {
    for (name, mesh) in [
        ("M1 from gate 5", M1.from_gate(5)),
        ("M1 from gate 6", M1.from_gate(6)),
        ("M1, v = 0", M1.with_v(0)),
        ("M1, v = 2", M1.with_v(2)),
        ("M1, v = 4", M1.with_v(4)),
        ("M1, v = 4294967295", M1.with_v(4294967295)),
    ] {
        check(rt, name, mesh)?;
    }
    Ok(())
}

// One rule broken.
fn broken(rt: &impl Print) -> io::Result<()> {
    let all_zero = M1.with_vs(&[0; 6]);
    let large = M1.with_vs(&[4000000000, 0, 1, 0, 4000000000, 1]);
    for (name, mesh) in [
        ("M1, O[0] = 0", M1.with_os(&[0, 3, 5, 1, 0, 2])),
        ("M1, O[0] = 6", M1.with_os(&[6, 3, 5, 1, 0, 2])),
        ("M1, V[0] = 1", M1.with_vs(&[1, 0, 1, 0, 2, 1])),
        ("M1, all V 0", all_zero.with_v(1)),
        ("M1, vertex 2 is 4000000000", large.with_v(4294967295)),
        ("M12", M12),
        ("M12 from gate 6", M12.from_gate(6)),
        ("torus", TORUS),
        ("torus, v = 8", TORUS.with_v(8)),
    ] {
        check(rt, name, mesh)?;
    }
    let mut work = [NONE; 167];
    check_in(rt, "torus, work space of 167", TORUS, &mut work)
}

// What was seen of strings and gates: all, those that were written, those that gave the string again, the same from
// gate 0 alone.
#[derive(Clone, Copy, Default)]
struct Seen {
    gates: u64,
    written: u64,
    same: u64,
    from_zero: u64,
}

impl Seen {
    // One more string and gate.
    fn see(&mut self, gate: u32, written: bool, same: bool) {
        self.gates = plus(self.gates, 1);
        self.written = plus(self.written, u64::from(written));
        self.same = plus(self.same, u64::from(same));
        self.from_zero = plus(self.from_zero, u64::from(same && gate == 0));
    }
}

// The tables of all strings of T letters that are accepted, N entries each, written from every gate.
fn all<const T: usize, const N: usize>(rt: &impl Print, total: u32) -> io::Result<()>
    requires { (T ≤ 8) × (N ≤ 24) }
{
    let mut s = [0u8; T];
    let mut vs = [0u32; N];
    let mut os = [0u32; N];
    let mut out = [0u8; T];
    let mut walk = [0u32; T];
    let mut work = [0u32; 96];
    let mut seen = Seen::default();
    for n in 0..total {
        spell(n, &mut s);
        if let Ok(counts) = conn::read_string(&s, &mut vs, &mut os, &mut work) {
            // never: T is 8 at most
            if 8 < counts.t {
                continue;
            }
            for gate in 0..3 * counts.t {
                let mesh = Mesh {
                    vs: &vs,
                    os: &os,
                    v: counts.v,
                    gate,
                };
                let written = mesh.write(&mut out, &mut walk, &mut work);
                seen.see(gate, written.is_ok(), equal(&s, &out));
            }
        }
    }
    println!(rt;
        "t={T} gates={} written={} same string={} from gate 0={}",
        seen.gates, seen.written, seen.same, seen.from_zero
    )
}

// Writes a mesh, and compares its string with s.
fn write_long(rt: &impl Print, s: &[u8], mesh: Mesh, work: &mut [u32]) -> io::Result<()> {
    let mut out = filled::<u8, 65536>(0);
    let mut walk = filled::<u32, 65536>(0);
    rt.print("written")?;
    show(rt, mesh.write(&mut out, &mut walk, work))?;
    print!(rt; " equal={}", u8::from(equal(s, &out)))?;
    space(rt, work)
}

// The largest mesh, read, checked and written from gate 0. The work space is lent: made here too, with what makes it,
// it would want the whole stack.
fn largest(rt: &impl Print, work: &mut [u32]) -> io::Result<()> {
    let mut s = filled::<u8, 65536>(0);
    let mut vs = filled::<u32, 196608>(0);
    let mut os = filled::<u32, 196608>(0);
    rise(&mut s, 32768);
    rt.print("read")?;
    show(rt, conn::read_string(&s, &mut vs, &mut os, work))?;
    let mesh = Mesh {
        vs: &vs,
        os: &os,
        v: 32770,
        gate: 0,
    };
    println!(rt)?;
    rt.print("checked")?;
    show(rt, mesh.check(work))?;
    println!(rt)?;
    write_long(rt, &s, mesh, work)
}

fn main(rt: HostRuntime) -> io::Result<()> {
    sizes(&rt)?;
    counts(&rt)?;
    broken(&rt)?;
    all::<2, 6>(&rt, 25)?;
    all::<4, 12>(&rt, 625)?;
    all::<6, 18>(&rt, 15625)?;
    let mut work = filled::<u32, 786432>(0);
    largest(&rt, &mut work)
}
