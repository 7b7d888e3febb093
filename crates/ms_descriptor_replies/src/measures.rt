//! What is told of a sane tree.

ghost use Rattle.std.specs.Prelude.{◌≡◌, ◌++◌, codes, OnOk};
ghost use Rattle.def_answer.specs.Lines.{line, limits_line as the_limits_line};
ghost use Rattle.def_answer.specs.Check.{type_letters as the_type_letters};
ghost use Rattle.ms_tree.specs.Shape.{shape};
ghost use Rattle.ms_descriptor_replies.specs.Found.{IsMeasured};

use ms_descriptor_lines::{push_text, push_text_line};
use ms_report::{limits_line, type_letters};
use ms_sane::{Limits, SaneTree};
use ms_types::{CorrectnessType, MalleabilityProperties};
use std::alloc::{AllocError, Global};

/// What is told of a sane tree.
#[derive(Clone, Copy, Debug)]
pub struct Measures {
    /// Its correctness type.
    pub ty: CorrectnessType,
    /// Its malleability properties.
    pub malleability_of: MalleabilityProperties,
    /// Its limits.
    pub limits: Limits,
}

impl Measures {
    /// What is told of a sane tree. Takes no memory.
    pub fn of(sane: &SaneTree<'_>) -> Measures
        ensures { IsMeasured (shape sane.now.valid.tree) result }
    {
        Measures {
            ty: sane.valid.ty,
            malleability_of: sane.malleability_of,
            limits: sane.valid.limits,
        }
    }

    /// Adds the lines of a tree's type and its limits.
    pub fn push_lines(self, alloc: Global, report: &mut Vec<u8>) -> Result<(), AllocError>
        ensures { OnOk result (report.new.items ≡ report.old.items ++ (line (codes "type " ++ the_type_letters self.ty self.malleability_of) ++ the_limits_line self.limits)) }
    {
        let letters = type_letters(alloc, self.ty, self.malleability_of)?;
        push_text_line(report, "type ", letters.as_bytes())?;
        push_text(report, &limits_line(alloc, self.limits)?)
    }
}
