// Gates run: small meshes written from all their gates, the gates grouped by string, and for every two gates the
// renumbering that the walk tables show against a plain search for one.
//
//     group      the gates with the string of one; for each but that one the renumbering from it by the walk tables,
//                whether the search finds one, and whether it is equal
//     one two    a mesh with itself, groups and every pair of gates; two meshes of 10 triangles, every pair of gates.
//                Each answers how many pairs differ. It answers 1 where a string has more than 10 letters, `two` also
//                where one is refused or has fewer; to `one` a refused string is a mesh of no corners: it answers 0.
#![tactic(auto)]

mod compare;
mod maps;

use compare::pairs;
use maps::{Gated, Map, Mesh, map_of, named, numbers, search, shown};
use std::io;
use theory::Counts;
use trial::{at, equal, plus, show};

// The first n places of a map.
fn row(rt: &impl Print, name: &str, map: &[Option<u32>], n: u32) -> io::Result<()> {
    let places = numbers(map);
    rt.print(name)?;
    for k in 0..n {
        print!(rt; " {}", at(&places, k))?;
    }
    Ok(())
}

// The renumbering from one gate to another, as the walk tables show it.
fn member(rt: &impl Print, a: Gated, b: Gated, walked: Map) -> io::Result<()> {
    print!(rt; "  {} to {}", a.gate, b.gate)?;
    row(rt, ": corners", &walked, a.mesh.corners())?;
    if let Some(names) = named(a.mesh, b.mesh, &walked) {
        row(rt, ", vertices", &names, a.mesh.v)?;
    }
    let found = search(a, b);
    println!(rt;
        ", found={} equal={}",
        u8::from(found.is_ok()),
        u8::from(equal(&walked, map_of(&found)))
    )
}

fn group(rt: &impl Print, a: Gated) -> io::Result<()> {
    if let Ok(written) = a.write() {
        rt.write_all(written.text())?;
    }
    rt.print(" gates")?;
    for h in a.gate..a.mesh.corners() {
        if a.same_string(a.mesh.at(h)) {
            print!(rt; " {h}")?;
        }
    }
    println!(rt)?;
    for h in (a.gate..a.mesh.corners()).skip(1) {
        let b = a.mesh.at(h);
        if let Ok(walked) = shown(a, b) {
            member(rt, a, b, walked)?;
        }
    }
    Ok(())
}

// The groups of gates, each where its first gate stands.
fn groups(rt: &impl Print, mesh: Mesh) -> io::Result<()> {
    for g in 0..mesh.corners() {
        if !(0..g).any(|h| mesh.at(h).same_string(mesh.at(g))) {
            group(rt, mesh.at(g))?;
        }
    }
    Ok(())
}

fn one(rt: &impl Print, s: &str) -> io::Result<u64> {
    let mut vs = [0; 30];
    let mut os = [0; 30];
    let mut work = [0; 120];
    let read = conn::read_string(s.as_bytes(), &mut vs, &mut os, &mut work);
    print!(rt; "mesh {s}")?;
    show(rt, read)?;
    println!(rt)?;
    let Some(mesh) = Mesh::new(&vs, &os, read.unwrap_or(Counts { t: 0, v: 0 })) else {
        return Ok(1);
    };
    groups(rt, mesh)?;
    let seen = pairs(rt, mesh, mesh)?;
    seen.tell(rt)?;
    Ok(seen.differ)
}

fn two(rt: &impl Print, s: &str, z: &str) -> io::Result<u64> {
    let mut v0 = [0; 30];
    let mut o0 = [0; 30];
    let mut v1 = [0; 30];
    let mut o1 = [0; 30];
    let mut work = [0; 120];
    let a = conn::read_string(s.as_bytes(), &mut v0, &mut o0, &mut work);
    let b = conn::read_string(z.as_bytes(), &mut v1, &mut o1, &mut work);
    print!(rt; "meshes {s} and {z} ")?;
    let a = a.ok().and_then(|counts| Mesh::new(&v0, &o0, counts));
    let b = b.ok().and_then(|counts| Mesh::new(&v1, &o1, counts));
    let (Some(a), Some(b)) = (a, b) else {
        return Ok(1);
    };
    if a.corners() != 30 || b.corners() != 30 {
        return Ok(1);
    }
    let seen = pairs(rt, a, b)?;
    seen.tell(rt)?;
    Ok(seen.differ)
}

fn main(rt: HostRuntime) -> io::Result<()> {
    let mut d = 0;
    for s in ["CE", "CCRE", "CCCRLE", "CCCRCRRE", "CCCLRE", "CCCCLRLE"] {
        d = plus(d, one(&rt, s)?);
    }
    // itself, its mirrored image, and another mesh of as many triangles
    for z in ["CCCCCRLLRE", "CCCCCRLRLE", "CCCCRCRRRE"] {
        d = plus(d, two(&rt, "CCCCCRLLRE", z)?);
    }
    println!(rt; "all differences={d}")
}
