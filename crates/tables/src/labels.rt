// The vertices of all triangles, by a pass over the letters from the first: each triangle lies between two ends, which
// the one before it leaves, and its tip is new or stands at a corner that was made before.
ghost use Rattle.std.specs.Prelude.{◌≡◌, ℕ, ◌+◌, ◌*◌, ◌<◌, ◌≤◌, length};
ghost use Rattle.tables.specs.Fill.{after_facing, before_facing, fill_in, fill_step, fill_v, resumed, row};

use corner::{next_of, previous_of};
use lent::{at, letter_of};
use theory::Letter;

// The ends of the next triangle, and the next new vertex.
#[derive(Clone, Copy)]
pub struct Sides {
    pub left: u32,
    pub right: u32,
    pub new: u32,
}

// The vertex at the corner after, and before, the one that faces i. Two functions of one line each: with the step as a
// closure they would be no plainer.
#[tactic(auto, unfolding(crate::specs::Fill::after_facing))]
fn after_facing(os: &[u32], vs: &[u32], i: usize) -> u32
    ensures { result ≡ after_facing os.now vs.now i }
{
    at(vs, next_of(at(os, i) as usize))
}

#[tactic(auto, unfolding(crate::specs::Fill::before_facing))]
fn before_facing(os: &[u32], vs: &[u32], i: usize) -> u32
    ensures { result ≡ before_facing os.now vs.now i }
{
    at(vs, previous_of(at(os, i) as usize))
}

// The three vertices of triangle k, whose tip is x.
#[tactic(auto, unfolding(crate::specs::Fill::row))]
fn place(k: usize, x: u32, sides: Sides, vs: &mut [u32])
    requires { (k < 65536) × (3 * k + 2 < length vs.old) }
    ensures { vs.new ≡ row k x sides.left sides.right vs.old }
{
    vs[3 * k] = x;
    vs[3 * k + 1] = sides.left;
    vs[3 * k + 2] = sides.right;
}

// The next triangle stands where an S waits.
#[tactic(auto, unfolding(crate::specs::Fill::resumed))]
fn resume(j: usize, new: u32, os: &[u32], vs: &[u32]) -> Sides
    requires { j ≤ 65536 }
    ensures { fill_in vs.now result ≡ resumed j os.now vs.now new }
{
    let left = before_facing(os, vs, 3 * j);
    let right = after_facing(os, vs, 3 * j);
    Sides { left, right, new }
}

// The letter a of triangle k.
#[tactic(auto, unfolding(crate::specs::Fill::fill_step, crate::specs::Fill::at_right, crate::specs::Fill::at_left))]
fn turn(a: Letter, k: usize, sides: Sides, notes: &[u32], os: &[u32], vs: &mut [u32]) -> Sides
    requires { (k < 65536) × (sides.new < 1000000) × (3 * k + 2 < length vs.old) }
    ensures { fill_in vs.new result ≡ fill_step a k notes.now os.now (fill_in vs.old sides) }
{
    match a {
        Letter::C => {
            place(k, sides.new, sides, vs);
            Sides {
                left: sides.new,
                new: sides.new + 1,
                ..sides
            }
        }
        Letter::L => {
            let left = before_facing(os, vs, 3 * k + 2);
            place(k, left, sides, vs);
            Sides { left, ..sides }
        }
        Letter::E => {
            let x = after_facing(os, vs, 3 * k + 1);
            place(k, x, sides, vs);
            resume(k + 1, sides.new, os, vs)
        }
        Letter::R => {
            let right = after_facing(os, vs, 3 * k + 1);
            place(k, right, sides, vs);
            Sides { right, ..sides }
        }
        Letter::S => {
            let side = at(notes, k);
            let left = after_facing(os, vs, side as usize);
            place(k, left, sides, vs);
            Sides { left, ..sides }
        }
    }
}

// The vertices of all triangles; the first of them lies between the vertices 0 and 1.
pub fn fill(s: &[u8], notes: &[u32], os: &[u32], vs: &mut [u32])
    requires { (length s.now ≤ 65536) × (3 * length s.now ≤ length vs.old) }
    ensures { vs.new ≡ fill_v s.now notes.now os.now vs.old }
{
    let mut sides = Sides {
        left: 0,
        right: 1,
        new: 2,
    };
    for (k, &b) in s.iter().enumerate() {
        sides = turn(letter_of(b), k, sides, notes, os, vs);
    }
}
