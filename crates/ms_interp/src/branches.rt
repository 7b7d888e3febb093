//! The open branches of IF and NOTIF, as two numbers.
ghost use Rattle.std.specs.Prelude.{◌≡◌, ◌==◌, ◌<◌, ◌≤◌};
ghost use Rattle.ms_interp.specs.Scaffolding.Stops.{IsResult};
ghost use Rattle.ms_interp.specs.Scaffolding.Branches.{all_taken, with_branch, turned, closed};

use def_machine::ScriptFault;

/// The open branches: how many there are, and the place, counted from the outermost, of the first one
/// that isn't taken. Turning round a branch inside that one changes nothing.
#[derive(Clone, Copy)]
pub struct Branches {
    depth: usize,
    first_false: Option<usize>,
}

impl Branches {
    /// No open branch.
    pub fn new() -> Branches
        ensures { result ≡ record { depth = 0; first_false = None } }
    {
        Branches {
            depth: 0,
            first_false: None,
        }
    }

    /// Whether no branch is open.
    pub fn is_empty(&self) -> bool
        ensures { result ≡ (self.now.depth == 0) }
    {
        self.depth == 0
    }

    /// Whether all open branches are taken.
    pub fn all_taken(&self) -> bool
        ensures { result ≡ all_taken self.now }
    {
        self.first_false.is_none()
    }

    /// Opens a branch inside the others.
    pub fn open(&mut self, taken: bool)
        requires { self.old.depth < usize.MAX }
        ensures { self.new ≡ with_branch taken self.old }
    {
        if !taken && self.first_false.is_none() {
            self.first_false = Some(self.depth);
        }
        self.depth += 1;
    }

    /// Turns the innermost branch round.
    pub fn turn(&mut self) -> Result<(), ScriptFault>
        ensures value { IsResult result self.new (turned self.old) }
        ensures depth { self.new.depth ≡ self.old.depth }
    {
        if self.depth == 0 {
            return Err(ScriptFault::Unbalanced);
        }
        let innermost = self.depth - 1;
        match self.first_false {
            None => self.first_false = Some(innermost),
            Some(place) => {
                if place == innermost {
                    self.first_false = None;
                }
            }
        }
        Ok(())
    }

    /// Closes the innermost branch.
    pub fn close(&mut self) -> Result<(), ScriptFault>
        ensures value { IsResult result self.new (closed self.old) }
        ensures depth { self.new.depth ≤ self.old.depth }
    {
        if self.depth == 0 {
            return Err(ScriptFault::Unbalanced);
        }
        self.depth -= 1;
        if let Some(place) = self.first_false {
            if place == self.depth {
                self.first_false = None;
            }
        }
        Ok(())
    }
}
