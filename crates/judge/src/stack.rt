// The widths of words in a row, in a stack that grows down in a lent slice.
ghost use Rattle.std.specs.Prelude.{◌≡◌, ◌∷◌, [], ◌↔◌, ◌<◌, ◌≤◌, IsTrue, MatchOption, length};

use theory::Letter;

// The numbers of work from at on, the first word's first.
#[derive(Drop)]
pub struct Stack<'a> {
    pub work: &'a mut [u32],
    pub at: usize,
    ghost within: { at ≤ length work.now },
}

impl<'a> Stack<'a> {
    ghost use Rattle.judge.specs.Stack.{held, Ready, Turned};

    pub fn new(work: &'a mut [u32]) -> Stack<'a>
        ensures same { result.work.now ≡ work.old }
        ensures empty { result.at ≡ length work.old }
    {
        let at = work.len();
        Stack { work, at }
    }

    pub fn is_empty(&self) -> bool
        ensures { IsTrue result ↔ held self.now ≡ [] }
    {
        self.work.len() <= self.at
    }

    fn push(&mut self, width: u32)
        requires { 0 < self.old.at }
        ensures same { length self.new.work.now ≡ length self.old.work.now }
        ensures pushed { held self.new ≡ width ∷ held self.old }
    {
        self.at -= 1;
        self.work[self.at] = width;
    }

    fn pop(&mut self) -> Option<u32>
        ensures same { length self.new.work.now ≡ length self.old.work.now }
        ensures popped { MatchOption result
            ((held self.old ≡ []) × (held self.new ≡ []))
            (λ width. held self.old ≡ width ∷ held self.new) }
    {
        if self.at < self.work.len() {
            let width = self.work[self.at];
            self.at += 1;
            Some(width)
        } else {
            None
        }
    }

    // The first width with the letter a before words of the widths top and those of the stack, which keeps the others.
    // None where a word lacks.
    #[tactic(auto, unfolding(crate::specs::Widths::widths_before))]
    pub fn turn(&mut self, a: Letter, top: Option<u32>) -> Option<u32>
        requires { Ready top self.old }
        ensures { Turned a top self.old self.new result }
    {
        match a {
            Letter::E => {
                if let Some(width) = top {
                    self.push(width);
                }
                Some(3)
            }
            Letter::C => Some(top? - 1),
            Letter::L | Letter::R => Some(top? + 1),
            Letter::S => Some(top? + self.pop()? - 1),
        }
    }
}
