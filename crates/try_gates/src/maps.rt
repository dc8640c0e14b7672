// Renumberings of a mesh onto a mesh: the one that two walk tables show, and the one that a plain search finds.
//
//     Mesh       the tables of a mesh of 10 triangles at most, and how many vertices it has
//     Gated      a mesh with its gate
//     Written    its string and its walk table
//     Map        where each corner goes, None where that is not known
//     shown      triangle k of one walk goes to triangle k of the other; an Err where the strings differ
//     search     gate goes to gate, and next and opposite then settle each other corner; an Err where one would go to
//                two, or two to one. No walk is used, nor a step of the library.
//     map_of     the map itself, an Err's as far as it goes
//     numbers    a map as a table, NONE where it knows none
ghost use Rattle.std.specs.Prelude.{◌≤◌, length};

use theory::{Counts, Refusal};
use trial::{NONE, at, change, entries, entry, equal, store};

#[derive(Clone, Copy)]
pub struct Mesh<'a> {
    vs: &'a [u32],
    os: &'a [u32],
    pub v: u32,
    ghost small: { length vs.now ≤ 30 },
}

#[derive(Clone, Copy)]
pub struct Gated<'a> {
    pub mesh: Mesh<'a>,
    pub gate: u32,
}

// Of the 10 letters and corners the first t are written. Arrays beside a count, since no heap is used.
#[derive(Clone, Copy)]
pub struct Written {
    letters: [u8; 10],
    walk: [u32; 10],
    t: usize,
}

pub type Map = [Option<u32>; 30];

impl<'a> Mesh<'a> {
    // The mesh that was read into the tables; None where it has more than 10 triangles.
    pub fn new(vs: &'a [u32], os: &'a [u32], counts: Counts) -> Option<Mesh<'a>> {
        let n = 3 * (counts.t as usize);
        if 30 < n {
            return None;
        }
        Some(Mesh {
            vs: vs.get(..n)?,
            os: os.get(..n)?,
            v: counts.v,
        })
    }

    pub fn corners(self) -> u32 {
        self.vs.len() as u32
    }

    pub fn at(self, gate: u32) -> Gated<'a> {
        Gated { mesh: self, gate }
    }
}

impl Gated<'_> {
    pub fn write(self) -> Result<Written, Refusal> {
        let mut letters = [0; 10];
        let mut walk = [NONE; 10];
        let mut work = [0; 120];
        let Mesh { vs, os, v } = self.mesh;
        let counts = conn::write_string(vs, os, v, self.gate, &mut letters, &mut walk, &mut work)?;
        Ok(Written {
            letters,
            walk,
            t: counts.t as usize,
        })
    }

    pub fn same_string(self, b: Gated) -> bool {
        shown(self, b).is_ok()
    }
}

impl Written {
    pub fn text(&self) -> &[u8] {
        &self.letters[..self.t.min(10)]
    }
}

// The step of the search, its own.
fn next(c: u32) -> u32 {
    if 1000000 < c {
        return c;
    }
    if c % 3 == 2 { c - 2 } else { c + 1 }
}

// A number of a table as a place of a map.
fn known(x: u32) -> Option<u32> {
    (x != NONE).then_some(x)
}

pub fn numbers(map: &[Option<u32>]) -> [u32; 30] {
    let mut tab = [NONE; 30];
    for i in 0..30 {
        if let Some(x) = entry(map, i, None) {
            store(&mut tab, i, x);
        }
    }
    tab
}

pub fn map_of(map: &Result<Map, Map>) -> &Map {
    match map {
        Ok(all) => all,
        Err(part) => part,
    }
}

// The corners of the triangle of c, from c on, go to those from d on.
fn carry(map: &mut Map, c: u32, d: u32) {
    change(map, c, known(d));
    change(map, next(c), known(next(d)));
    change(map, next(next(c)), known(next(next(d))));
}

pub fn shown(a: Gated, b: Gated) -> Result<Map, Map> {
    let mut map = [None; 30];
    let (Ok(from), Ok(to)) = (a.write(), b.write()) else {
        return Err(map);
    };
    for k in 0..a.mesh.corners() / 3 {
        carry(&mut map, at(&from.walk, k), at(&to.walk, k));
    }
    if equal(&from.letters, &to.letters) {
        Ok(map)
    } else {
        Err(map)
    }
}

// Place i of the map is x, where it was not known: whether it is x then.
fn settle(map: &mut [Option<u32>], i: u32, x: u32) -> bool {
    match entry(map, i, None) {
        Some(place) => place == x,
        None => {
            change(map, i, known(x));
            true
        }
    }
}

// From corner c, if its place is known, to the next one and to the opposite one: whether both may be there.
fn spread(a: Mesh, b: Mesh, map: &mut [Option<u32>], c: u32) -> bool {
    let Some(d) = entry(map, c, None) else {
        return true;
    };
    settle(map, next(c), next(d)) && settle(map, at(a.os, c), at(b.os, d))
}

// The same from each corner, n times: whether all may be where they are. A turn settles a corner more while there is
// one; after n - 1 turns all are settled, and the last looks at each again.
fn sweeps(a: Mesh, b: Mesh, map: &mut [Option<u32>]) -> bool {
    let n = a.corners();
    for _ in 0..n {
        for c in 0..n {
            if !spread(a, b, map, c) {
                return false;
            }
        }
    }
    true
}

// Where each vertex goes if each corner goes by the map; None where one would go to two, or to none.
pub fn named(a: Mesh, b: Mesh, map: &Map) -> Option<[Option<u32>; 7]> {
    let mut names = [None; 7];
    for c in 0..a.corners() {
        if let Some(d) = entry(map, c, None) {
            let to = at(b.vs, d);
            if to == NONE || !settle(&mut names, at(a.vs, c), to) {
                return None;
            }
        }
    }
    Some(names)
}

// Each number below n is in the map just once.
fn onto(map: &[Option<u32>], n: u32) -> bool {
    let places = numbers(map);
    (0..n).all(|x| entries(&places, x) == 1)
}

pub fn search(a: Gated, b: Gated) -> Result<Map, Map> {
    let mut map = [None; 30];
    change(&mut map, a.gate, Some(b.gate));
    if !sweeps(a.mesh, b.mesh, &mut map) {
        return Err(map);
    }
    let Some(names) = named(a.mesh, b.mesh, &map) else {
        return Err(map);
    };
    if onto(&map, a.mesh.corners()) && onto(&names, a.mesh.v) {
        Ok(map)
    } else {
        Err(map)
    }
}
