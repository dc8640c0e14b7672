// Tables that keep rules 10 and 11, as types: what holds of every value of them is proved once, where it is made. They
// have the two tables themselves and no `lent::Tables`, since every clause names the tables.
ghost use Rattle.std.specs.Prelude.{◌≡◌, ◌<◌, length};
ghost use Rattle.theory.specs.Corner.{opposite, swing};
ghost use Rattle.theory.proofs.MeshLaws.{Shape};
ghost use Rattle.theory.proofs.SwingLaws.{Pairing, Surface};

use corner::{opposite_of, swing_of};

// Tables of a mesh's shape that keep rule 10: opposites pair the corners.
#[derive(Clone, Copy)]
pub struct Paired<'a> {
    pub vs: &'a [u32],
    pub os: &'a [u32],
    pub ghost shape: { Shape vs.now os.now },
    pub ghost pairing: { Pairing os.now },
}

// The steps from a corner of the table lead to corners of it.
impl Paired<'_> {
    pub fn opposite(&self, c: usize) -> usize
        requires { c < length self.now.os.now }
        ensures { (result ≡ opposite self.now.os.now c) × (result < length self.now.os.now) }
    {
        opposite_of(self.os, c)
    }

    #[tactic(auto, using(theory::proofs::SwingLaws::swing_in))]
    pub fn swing(&self, c: usize) -> usize
        requires { c < length self.now.os.now }
        ensures { (result ≡ swing (opposite self.now.os.now) c) × (result < length self.now.os.now) }
    {
        swing_of(self.os, c)
    }
}

// Such tables that keep rule 11 too, a surface: edges are glued end to end.
#[derive(Clone, Copy)]
pub struct Glued<'a> {
    pub vs: &'a [u32],
    pub os: &'a [u32],
    pub ghost shape: { Shape vs.now os.now },
    pub ghost surface: { Surface vs.now os.now },
}

impl<'a> Glued<'a> {
    // As tables that keep rule 10.
    #[tactic(auto, using(theory::proofs::SwingLaws::pairing))]
    pub fn paired(&self) -> Paired<'a>
        ensures { (result.vs ≡ self.now.vs) × (result.os ≡ self.now.os) }
    {
        Paired {
            vs: self.vs,
            os: self.os,
        }
    }
}
