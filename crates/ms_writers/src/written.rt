//! The writers of instructions, one after the other.
ghost use Rattle.std.specs.Prelude.{◌≡◌, [], false, OnOk};
ghost use Rattle.def_script.specs.Instruction.{code};
ghost use Rattle.def_trace.specs.Writers.{by};
ghost use Rattle.ms_writers.specs.Scaffolding.Wrote.{wrote, wrote_push, wrote_verify};

use ms_script::{Op, verify_form_of};
use std::alloc::{AllocError, Global};
use std::marker::Model;

/// The writers of the instructions so far, and whether the last instruction has a form that does VERIFY too.
#[derive(Drop)]
pub struct Written {
    nodes: Vec<u32>,
    fuses: bool,
}

impl Model for Written {
    ghost use Rattle.ms_writers.specs.Scaffolding.Wrote.{Wrote};

    ghost Value = { Wrote };

    ghost view = { λ w. record { nodes = w.nodes.items; fuses = w.fuses } };
}

impl Written {
    /// No instruction.
    pub fn new(alloc: Global) -> Written
        ensures { result ≡ record { nodes = []; fuses = false } }
    {
        Written {
            nodes: Vec::new(alloc),
            fuses: false,
        }
    }

    /// A push by a node.
    pub fn push(&mut self, node: u32) -> Result<(), AllocError>
        ensures { OnOk result (self.new ≡ wrote_push node self.old) }
    {
        self.nodes.push(node)?;
        self.fuses = false;
        Ok(())
    }

    /// An opcode by a node.
    pub fn code(&mut self, node: u32, op: Op) -> Result<(), AllocError>
        ensures { OnOk result (self.new ≡ wrote self.old (by node (code op))) }
    {
        self.nodes.push(node)?;
        self.fuses = verify_form_of(op).is_some();
        Ok(())
    }

    /// VERIFY by a node, which belongs to who wrote the last opcode where that has a form for it.
    pub fn verify(&mut self, node: u32) -> Result<(), AllocError>
        ensures { OnOk result (self.new ≡ wrote_verify node self.old) }
    {
        if !self.fuses {
            self.nodes.push(node)?;
        }
        self.fuses = false;
        Ok(())
    }

    /// The writers, in order.
    pub fn nodes(self) -> Vec<u32>
        ensures { result.items ≡ self.nodes }
    {
        self.nodes
    }
}
