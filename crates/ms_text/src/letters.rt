//! Runs of letters before a colon. The first letter of a run is the outermost one.
ghost use Rattle.std.specs.Prelude.{◌≡◌, ◌+◌, ◌<◌, ◌^◌, true, length, is_some, IfOk, IfErr, OnOk};
ghost use Rattle.def_text.specs.Scaffolding.Reader.{letters_of};
ghost use Rattle.ms_text.specs.Scaffolding.Forms.{HasLetters};
ghost use Rattle.ms_text.specs.Scaffolding.Room.{HasRoomFor, IsLarger};
ghost use Rattle.ms_text.specs.Scaffolding.Runs.{offsets_before_run};
ghost use Rattle.ms_tree.specs.Shape.{shape};

use crate::build::add_offset;
use crate::names::letter_named;
use crate::reader::Reader;
use def_text::TextFault;
use ms_tree::Tree;

/// Adds the offsets of the nodes that the letters of a run put before their expression, each the `0` of an `l`. The first
/// letter stands at `name`.
pub fn add_offsets_before(offsets: &mut Vec<u32>, run: &[u8], name: usize) -> Result<(), TextFault>
    requires { name + length run.now < 2 ^ 32 }
    ensures added { OnOk result (offsets.new.items ≡ offsets_before_run name run.now offsets.old.items) }
    ensures memory { IfErr result (λ e. e ≡ TextFault.Memory) }
{
    let mut at = name;
    for &byte in run {
        if byte == b'l' {
            add_offset(offsets, at)?;
        }
        at += 1;
    }
    Ok(())
}

impl<'a> Reader<'a, '_> {
    /// An expression with the letters of a run before it, of which the first stands at `name`. The offsets of the nodes that
    /// they put behind it are added.
    pub fn with_letters(
        &self,
        run: &[u8],
        name: usize,
        x: Tree<'a>,
        offsets: &mut Vec<u32>,
    ) -> Result<Tree<'a>, TextFault>
        requires run { is_some (letters_of run.now) ≡ true }
        requires room { HasRoomFor (length run.now) (shape x) }
        requires before { name + length run.now < 2 ^ 32 }
        ensures larger { IfOk result (λ t. IsLarger (length run.now) (shape x.entry) (shape t)) }
        ensures reads { IfOk result (HasLetters run.now name (shape x.entry) offsets.old.items offsets.new.items) }
        ensures memory { IfErr result (λ e. e ≡ TextFault.Memory) }
    {
        let mut tree = x;
        let mut left = run.len();
        while left > 0 {
            left -= 1;
            let Some(letter) = letter_named(run[left]) else {
                unreachable!();
            };
            tree = self.with_letter(letter, name + left, tree, offsets)?;
        }
        Ok(tree)
    }
}
