//! What a Script comes to: the length of its bytes, and its opcodes that count.
ghost use Rattle.std.specs.Prelude.{◌≡◌, ◌+◌, ◌≤◌, ℕ, List, length};
ghost use Rattle.def_script.specs.Instruction.{push, code};
ghost use Rattle.def_script.specs.Spell.{shortest_push};
ghost use Rattle.ms_extent.specs.Extent.{capped_u64, extended, extended_verify};

use ms_script::{Op, push_length, verify_form_of};

/// What a Script comes to. It takes instructions as a Script does, and keeps none of them. Each number
/// goes up to `u64::MAX`.
#[derive(Clone, Copy)]
pub struct Extent {
    /// The length of its encoding.
    pub bytes: u64,
    /// How many instructions aren't pushes.
    pub opcodes: u64,
    /// Whether the last instruction has a form that does VERIFY too.
    pub fuses: bool,
}

impl Extent {
    /// No instruction.
    pub const NONE: Extent = Extent {
        bytes: 0,
        opcodes: 0,
        fuses: false,
    };

    /// A push of these bytes.
    pub fn push(&mut self, bytes: &[u8])
        ensures { self.new ≡ extended self.old (push bytes.now) }
    {
        self.add_push(push_length(bytes));
    }

    /// A push of as many bytes as a key or a digest has, which are no small number.
    pub fn push_sized(&mut self, size: u8)
        requires several { 2 ≤ size }
        requires short { size ≤ 75 }
        ensures { (bytes : List ℕ) → length bytes ≡ size → self.new ≡ extended self.old (push bytes) }
    {
        self.add_push(1 + size as u64);
    }

    /// A push that is spelled in so many bytes.
    fn add_push(&mut self, spelled: u64)
        ensures { (bytes : List ℕ) → length (shortest_push bytes) ≡ spelled → self.new ≡ extended self.old (push bytes) }
    {
        self.bytes = self.bytes.saturating_add(spelled);
        self.fuses = false;
    }

    /// An opcode.
    pub fn code(&mut self, op: Op)
        ensures { self.new ≡ extended self.old (code op) }
    {
        self.add_opcode();
        self.fuses = verify_form_of(op).is_some();
    }

    /// VERIFY, which is fused with the last opcode where that has a form for it.
    pub fn verify(&mut self)
        ensures { self.new ≡ extended_verify self.old }
    {
        if !self.fuses {
            self.add_opcode();
        }
        self.fuses = false;
    }

    fn add_opcode(&mut self)
        ensures bytes { self.new.bytes ≡ capped_u64 (self.old.bytes + 1) }
        ensures opcodes { self.new.opcodes ≡ capped_u64 (self.old.opcodes + 1) }
        ensures fuses { self.new.fuses ≡ self.old.fuses }
    {
        self.bytes = self.bytes.saturating_add(1);
        self.opcodes = self.opcodes.saturating_add(1);
    }
}
