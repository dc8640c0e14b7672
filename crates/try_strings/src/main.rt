// Strings run: all of 2, 4, 6 and 8 letters, each refusal with its tables and work space looked at, and the longest.
//
// Tables and work space are all nines before a call: 999,999,999 is neither a vertex nor a corner. After it, how many
// nines V and O kept, and how many nines and zeros the work space has.
#![tactic(auto)]

ghost use Rattle.std.specs.Prelude.{◌≤◌};

use std::io;
use trial::{NONE, entries, filled, nines, plus, rise, show, space, spell};

// All strings of T letters: how many of them are accepted.
fn count<const T: usize>(rt: &impl Print, total: u32) -> io::Result<()>
    requires { T ≤ 8 }
{
    let mut s = [0u8; T];
    let mut vs = [0u32; 24];
    let mut os = [0u32; 24];
    let mut work = [0u32; 96];
    let mut accepted = 0;
    for n in 0..total {
        spell(n, &mut s);
        if conn::read_string(&s, &mut vs, &mut os, &mut work).is_ok() {
            accepted = plus(accepted, 1);
        }
    }
    println!(rt; "t={T} accepted={accepted}")
}

// Reads s, and looks at the tables and the work space.
fn read_into(
    rt: &impl Print,
    s: &[u8],
    vs: &mut [u32],
    os: &mut [u32],
    work: &mut [u32],
) -> io::Result<()> {
    show(rt, conn::read_string(s, vs, os, work))?;
    print!(rt; " kept={},{}", entries(vs, NONE), entries(os, NONE))?;
    space(rt, work)
}

// The same with n entries for V, m for O and k for the work space.
fn read(rt: &impl Print, s: &str, n: usize, m: usize, k: usize) -> io::Result<()>
    requires { (n ≤ 20) × (m ≤ 20) × (k ≤ 80) }
{
    let mut vs = [NONE; 20];
    let mut os = [NONE; 20];
    let mut work = [NONE; 80];
    rt.print(s)?;
    read_into(rt, s.as_bytes(), &mut vs[..n], &mut os[..m], &mut work[..k])
}

fn each(rt: &impl Print) -> io::Result<()> {
    for s in [
        "", "CEE", "CCxE", "CCSE", "EC", "CERE", "CCEE", "CCCE", "LE", "CCLE", "CE",
    ] {
        read(rt, s, 20, 20, 80)?;
    }
    // room for it, but one number short in V, in O, in the work space; then room
    read(rt, "CCRE", 11, 12, 48)?;
    read(rt, "CCRE", 12, 11, 48)?;
    read(rt, "CCRE", 12, 12, 47)?;
    read(rt, "CCRE", 12, 12, 48)
}

// T letters: n Cs, then Rs, then E. The work space is lent: made here too, with what makes it, it would want the whole
// stack. V and O are made in place: what `filled` gives is copied, and each copy wants the stack again.
fn long<const T: usize>(rt: &impl Print, n: usize, work: &mut [u32]) -> io::Result<()>
    requires { T ≤ 65538 }
{
    let mut s = [0; T];
    let mut vs = [NONE; 196620];
    let mut os = [NONE; 196620];
    rise(&mut s, n);
    nines(work);
    print!(rt; "length {T}")?;
    read_into(rt, &s, &mut vs, &mut os, work)
}

fn main(rt: HostRuntime) -> io::Result<()> {
    count::<2>(&rt, 25)?;
    count::<4>(&rt, 625)?;
    count::<6>(&rt, 15625)?;
    count::<8>(&rt, 390625)?;
    each(&rt)?;
    let mut work = filled::<u32, 786440>(0);
    long::<65536>(&rt, 32768, &mut work)?;
    long::<65536>(&rt, 32769, &mut work)?;
    long::<65538>(&rt, 32769, &mut work)
}
