// The stepping rules as methods of a corner (document 01, "Mesh tables").
//
//          c            corner c is in triangle c / 3; seen with the edge opposite c at the bottom,
//         / \           n(c) is the left end and p(c) the right end
//     n(c)---p(c)
//
// The methods take the lent table and answer every corner: one beyond the table stays where it is. The functions below
// them are the same steps for loops that know their bounds; they take table and corner as the methods do, which is the
// form that document 01 names.
#![tactic(auto)]

ghost use Rattle.std.specs.Prelude.{◌≡◌, ℕ, ◌/◌, ◌<◌, length};
ghost use Rattle.theory.specs.Corner.{next, previous, triangle, opposite, left, right, swing, inside};
ghost use Rattle.corner.specs.Counted.{Counted};

#[derive(Clone, Copy, Debug, PartialEq, Eq)]
pub struct Corner {
    pub at: usize,
}

impl Corner {
    // One step f where the corner is in the table, and none beyond it: where f answers g, this answers g inside.
    fn step<F: FnOnce(usize) -> usize>(self, os: &[u32], f: F) -> Corner
        requires { triangle self.at < length os.now / 3 → F.pre f self.at }
        ensures { (g : ℕ → ℕ) → ((d : ℕ) → F.post f self.at d → d ≡ g self.at) → result.at ≡ inside os.now g self.at }
    {
        if self.at / 3 < os.len() / 3 {
            Corner { at: f(self.at) }
        } else {
            self
        }
    }

    pub fn next(self, os: &[u32]) -> Corner
        ensures { result.at ≡ inside os.now next self.at }
    {
        self.step(os, next_of)
    }

    pub fn previous(self, os: &[u32]) -> Corner
        ensures { result.at ≡ inside os.now previous self.at }
    {
        self.step(os, previous_of)
    }

    pub fn opposite(self, os: &[u32]) -> Corner
        ensures { result.at ≡ inside os.now (opposite os.now) self.at }
    {
        self.step(os, |c| opposite_of(os, c))
    }

    pub fn left(self, os: &[u32]) -> Corner
        ensures { result.at ≡ inside os.now (left (opposite os.now)) self.at }
    {
        self.step(os, |c| left_of(os, c))
    }

    pub fn right(self, os: &[u32]) -> Corner
        ensures { result.at ≡ inside os.now (right (opposite os.now)) self.at }
    {
        self.step(os, |c| right_of(os, c))
    }

    pub fn swing(self, os: &[u32]) -> Corner
        ensures { result.at ≡ inside os.now (swing (opposite os.now)) self.at }
    {
        self.step(os, |c| swing_of(os, c))
    }
}

#[tactic(auto, unfolding(theory::specs::Corner::next))]
pub fn next_of(c: usize) -> usize
    requires { Counted c }
    ensures { result ≡ next c }
{
    if c % 3 == 2 { c - 2 } else { c + 1 }
}

#[tactic(auto, unfolding(theory::specs::Corner::previous))]
pub fn previous_of(c: usize) -> usize
    requires { Counted c }
    ensures { result ≡ previous c }
{
    if c % 3 == 0 { c + 2 } else { c - 1 }
}

pub fn opposite_of(os: &[u32], c: usize) -> usize
    requires { triangle c < length os.now / 3 }
    ensures { (result ≡ opposite os.now c) × (result < 4294967296) }
{
    os[c] as usize
}

#[tactic(auto, unfolding(theory::specs::Corner::previous))]
pub fn left_of(os: &[u32], c: usize) -> usize
    requires { triangle c < length os.now / 3 }
    ensures { (result ≡ left (opposite os.now) c) × (result < 4294967296) }
{
    opposite_of(os, previous_of(c))
}

#[tactic(auto, unfolding(theory::specs::Corner::next))]
pub fn right_of(os: &[u32], c: usize) -> usize
    requires { triangle c < length os.now / 3 }
    ensures { (result ≡ right (opposite os.now) c) × (result < 4294967296) }
{
    opposite_of(os, next_of(c))
}

pub fn swing_of(os: &[u32], c: usize) -> usize
    requires { triangle c < length os.now / 3 }
    ensures { result ≡ swing (opposite os.now) c }
{
    next_of(right_of(os, c))
}
