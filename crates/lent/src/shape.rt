// Two lent tables that have the shape of a mesh, as a type: what holds of every value of it is tested once, where it is
// made.
ghost use Rattle.std.specs.Prelude.{◌≡◌, true, false, ◌/◌, length, MatchOption};
ghost use Rattle.theory.specs.Mesh.{shape_ok};

use crate::count_ok;

// V and O are of one length, a multiple of 3, and a third of it is a count.
#[derive(Clone, Copy)]
pub struct Tables<'a> {
    pub vs: &'a [u32],
    pub os: &'a [u32],
    pub ghost shape: { shape_ok vs.now os.now ≡ true },
}

impl<'a> Tables<'a> {
    // None where they have not that shape.
    #[tactic(auto, unfolding(theory::specs::Mesh::shape_ok))]
    pub fn new(vs: &'a [u32], os: &'a [u32]) -> Option<Tables<'a>>
        ensures { MatchOption result (shape_ok vs.now os.now ≡ false) (λ t. (t.vs.now ≡ vs.now) × (t.os.now ≡ os.now)) }
    {
        if vs.len() == os.len() && vs.len() % 3 == 0 && count_ok(vs.len() / 3) {
            Some(Tables { vs, os })
        } else {
            None
        }
    }

    // How many triangles they have.
    pub fn count(&self) -> usize
        ensures { result ≡ length self.now.vs.now / 3 }
    {
        self.vs.len() / 3
    }
}
