// The meshes that are checked, and the same with one thing changed.
//
//     M1      two triangles that share their three edges
//     M12     two copies of M1: two parts
//     TORUS   seven vertices: the triangles i, i + 1, i + 3 and i, i + 3, i + 2 for each i
use theory::{Counts, Refusal};

// A mesh of v vertices, and its gate corner.
#[derive(Clone, Copy)]
pub struct Mesh<'a> {
    pub vs: &'a [u32],
    pub os: &'a [u32],
    pub v: u32,
    pub gate: u32,
}

impl<'a> Mesh<'a> {
    pub fn with_vs(self, vs: &'a [u32]) -> Mesh<'a> {
        Mesh { vs, ..self }
    }

    pub fn with_os(self, os: &'a [u32]) -> Mesh<'a> {
        Mesh { os, ..self }
    }

    pub fn with_v(self, v: u32) -> Mesh<'a> {
        Mesh { v, ..self }
    }

    pub fn from_gate(self, gate: u32) -> Mesh<'a> {
        Mesh { gate, ..self }
    }

    pub fn check(self, work: &mut [u32]) -> Result<Counts, Refusal> {
        conn::check_mesh(self.vs, self.os, self.v, self.gate, work)
    }

    pub fn write(
        self,
        letters: &mut [u8],
        walk: &mut [u32],
        work: &mut [u32],
    ) -> Result<Counts, Refusal> {
        conn::write_string(self.vs, self.os, self.v, self.gate, letters, walk, work)
    }
}

pub const M1: Mesh<'static> = Mesh {
    vs: &[2, 0, 1, 0, 2, 1],
    os: &[4, 3, 5, 1, 0, 2],
    v: 3,
    gate: 0,
};

pub const M12: Mesh<'static> = Mesh {
    vs: &[2, 0, 1, 0, 2, 1, 5, 3, 4, 3, 5, 4],
    os: &[4, 3, 5, 1, 0, 2, 10, 9, 11, 7, 6, 8],
    v: 6,
    gate: 0,
};

pub const TORUS: Mesh<'static> = Mesh {
    vs: &[
        0, 1, 3, 0, 3, 2, 1, 2, 4, 1, 4, 3, 2, 3, 5, 2, 5, 4, 3, 4, 6, 3, 6, 5, 4, 5, 0, 4, 0, 6,
        5, 6, 1, 5, 1, 0, 6, 0, 2, 6, 2, 1,
    ],
    os: &[
        10, 5, 33, 14, 36, 1, 16, 11, 39, 20, 0, 7, 22, 17, 3, 26, 6, 13, 28, 23, 9, 32, 12, 19,
        34, 29, 15, 38, 18, 25, 40, 35, 21, 2, 24, 31, 4, 41, 27, 8, 30, 37,
    ],
    v: 7,
    gate: 0,
};
