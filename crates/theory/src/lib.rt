// Document 01 as definitions (specs/) and what follows from them (proofs/). The only code here is the types that
// definitions and code share, and their conversions.
#![tactic(auto)]

ghost use Rattle.std.specs.Prelude.{◌≡◌};
ghost use Rattle.theory.specs.Answer.{number};
ghost use Rattle.theory.specs.Letter.{byte, Decodes};

// How many triangles and vertices an accepted mesh or string has.
#[derive(Clone, Copy, Debug, PartialEq, Eq)]
pub struct Counts {
    pub t: u32,
    pub v: u32,
}

// The checks, in the order of their numbers.
#[derive(Clone, Copy, Debug, PartialEq, Eq)]
pub enum Rule {
    Count = 1,
    Room,
    Letter,
    Unfinished,
    Extra,
    Pinch,
    Width,
    Gate,
    Vertex,
    Opposite,
    Edge,
    Twice,
    Ring,
    Reach,
    Handle,
    Line,
    Form,
    Length,
}

impl Rule {
    pub fn at(self, place: u32) -> Refusal
        ensures { result ≡ record { rule = self; place = place } }
    {
        Refusal { rule: self, place }
    }
}

impl From<Rule> for u32 {
    ghost from_gives = { λ rule n. n ≡ number rule };

    fn from(rule: Rule) -> u32 {
        rule as u32
    }
}

// The check that refuses, and the place that breaks it.
#[derive(Clone, Copy, Debug, PartialEq, Eq)]
pub struct Refusal {
    pub rule: Rule,
    pub place: u32,
}

// The letters of the walk.
#[derive(Clone, Copy, Debug, PartialEq, Eq)]
pub enum Letter {
    C,
    L,
    E,
    R,
    S,
}

impl From<Letter> for u8 {
    ghost from_gives = { λ a b. b ≡ byte a };

    fn from(a: Letter) -> u8 {
        match a {
            Letter::C => b'C',
            Letter::L => b'L',
            Letter::E => b'E',
            Letter::R => b'R',
            Letter::S => b'S',
        }
    }
}

// A byte that is no letter.
#[derive(Clone, Copy, Debug, PartialEq, Eq)]
pub struct Foreign(pub u8);

impl TryFrom<u8> for Letter {
    type Error = Foreign;

    ghost try_from_gives = { Decodes };

    #[tactic(auto, unfolding(crate::specs::Letter::letter, crate::specs::Letter::is_letter))]
    fn try_from(b: u8) -> Result<Letter, Foreign> {
        match b {
            b'C' => Ok(Letter::C),
            b'L' => Ok(Letter::L),
            b'E' => Ok(Letter::E),
            b'R' => Ok(Letter::R),
            b'S' => Ok(Letter::S),
            _ => Err(Foreign(b)),
        }
    }
}
