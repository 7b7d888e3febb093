//! A stack of the machine.
ghost use Rattle.std.specs.Prelude.{◌≡◌, [], ◌∷◌, length, reverse, take, OnOk, MatchOption};
ghost use Rattle.def_machine.specs.Stacks.{bool_bytes};

use ms_script::Blob;
use std::alloc::{AllocError, Global};
use std::marker::Model;

/// A stack of the machine. Contracts see its elements, the top first.
#[derive(Drop)]
pub struct Pile {
    alloc: Global,
    elements: Vec<Blob>,
}

impl Model for Pile {
    ghost use Rattle.std.specs.Prelude.{reverse};
    ghost use Rattle.def_machine.specs.Stacks.{Stack};

    ghost Value = { Stack };

    ghost view = { λ p. reverse p.elements.items };
}

impl Pile {
    /// An empty stack.
    pub fn new(alloc: Global) -> Pile
        ensures { result ≡ [] }
    {
        Pile {
            alloc,
            elements: Vec::new(alloc),
        }
    }

    /// Puts an element on top.
    pub fn put(&mut self, element: Blob) -> Result<(), AllocError>
        ensures { OnOk result (self.new ≡ element ∷ self.old) }
    {
        self.elements.push(element)?;
        Ok(())
    }

    /// Puts a copy of the bytes on top.
    pub fn put_bytes(&mut self, bytes: &[u8]) -> Result<(), AllocError>
        ensures { OnOk result (self.new ≡ bytes.now ∷ self.old) }
    {
        let element = Blob::from_slice(self.alloc, bytes)?;
        self.put(element)
    }

    /// Puts the string for true or false on top.
    pub fn put_bool(&mut self, value: bool) -> Result<(), AllocError>
        ensures { OnOk result (self.new ≡ bool_bytes value ∷ self.old) }
    {
        if value {
            self.put_bytes(&[1])
        } else {
            self.put_bytes(&[])
        }
    }

    /// Takes the top.
    pub fn pop(&mut self) -> Option<Blob>
        ensures { MatchOption result ((self.old ≡ []) × (self.new ≡ [])) (λ top. self.old ≡ top ∷ self.new) }
    {
        self.elements.pop()
    }

    /// The upper elements, so many of them or as many as there are, the lowest first.
    pub fn upper(&self, count: usize) -> &[Blob]
        ensures { result.now ≡ reverse (take count self.now) }
    {
        &self.elements[self.elements.len().saturating_sub(count)..]
    }

    /// How many elements there are.
    pub fn len(&self) -> usize
        ensures { result ≡ length self.now }
    {
        self.elements.len()
    }

    /// The allocator of the elements.
    pub fn allocator(&self) -> Global {
        self.alloc
    }
}
