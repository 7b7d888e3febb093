//! The reading of expressions: one method for each group of forms. The depth counts the names and letters that enclose a
//! place.
ghost use Rattle.std.specs.Prelude.{◌≡◌, ◌+◌, ◌<◌, ◌≤◌, true, length, is_some, IfOk};
ghost use Rattle.def_tree.specs.InRange.{IsInRange};
ghost use Rattle.def_tree.specs.Tree as model;
ghost use Rattle.def_text.specs.Refusal.{MOST_WRITTEN_DEPTH};
ghost use Rattle.def_text.specs.Scaffolding.Reader as machine;
ghost use Rattle.ms_text.specs.Scaffolding.Forms.{ReadsWanted, ReadsForm, ReadsLetters, ReadsBehind, ReadsChildren, ReadsClosed};
ghost use Rattle.ms_text.specs.Scaffolding.Names.{pair_of};
ghost use Rattle.ms_text.specs.Scaffolding.Place.{IsPlace};
ghost use Rattle.ms_text.specs.Scaffolding.Room.{IsPart, AreParts, HaveRoom};
ghost use Rattle.ms_tree.specs.Shape.{shape, shapes};

use crate::arguments::number_at;
use crate::build::{add_child, add_offset, add_pair_offsets, new_and_or, new_thresh};
use crate::forms::{Part, bare_form};
use crate::letters::add_offsets_before;
use crate::names::{Form, Head, Heading, Pair, heading_at};
use crate::reader::Reader;
use crate::tokens::{Mark, Separator, behind_mark, separator_at};
use def_text::TextFault;
use ms_tree::Tree;

/// How deep a fragment name or a wrapper letter may stand.
const MOST_LEVELS: usize = 256;

/// Trees that were read, and the place behind the `)` that ends them.
#[derive(Drop)]
struct Children<'a> {
    trees: Vec<Tree<'a>>,
    end: usize,
}

impl<'a> Reader<'a, '_> {
    /// The expression that has to stand here. The offsets of its nodes are added.
    #[cycle(reader)]
    pub fn expression(
        &self,
        at: usize,
        depth: usize,
        offsets: &mut Vec<u32>,
    ) -> Result<Part<'a>, TextFault>
        requires place { IsPlace self.now.text.now at }
        requires depth { depth ≤ MOST_WRITTEN_DEPTH }
        ensures part { IfOk result (λ r. IsPart self.now.text.now at depth (shape r.tree) r.end) }
        ensures reads { ReadsWanted machine.expression depth offsets.old.items offsets.new.items self.now.text.now at result }
    {
        let Heading { word, head } = heading_at(self.text, at);
        let end = at + word.len();
        match head {
            Head::Neither => Err(TextFault::Syntax(at as u32)),
            Head::Name(form) => {
                if depth == MOST_LEVELS {
                    return Err(TextFault::TooDeep(at as u32));
                }
                self.fragment(form, at, end, depth, offsets)
            }
            Head::Letters => {
                if word.len() > MOST_LEVELS - depth {
                    return Err(TextFault::TooDeep(at as u32));
                }
                self.letters(word, at, end, depth, offsets)
            }
        }
    }

    /// A colon that has to stand at `end`, the expression behind it, and these letters applied to it, of which the first stands
    /// at `name`.
    #[cycle(reader)]
    fn letters(
        &self,
        run: &[u8],
        name: usize,
        end: usize,
        depth: usize,
        offsets: &mut Vec<u32>,
    ) -> Result<Part<'a>, TextFault>
        requires place { IsPlace self.now.text.now end }
        requires before { name + length run.now ≤ end }
        requires depth { depth + length run.now ≤ MOST_WRITTEN_DEPTH }
        requires run { is_some (machine.letters_of run.now) ≡ true }
        ensures part { IfOk result (λ r. IsPart self.now.text.now name depth (shape r.tree) r.end) }
        ensures reads { ReadsLetters run.now name depth offsets.old.items offsets.new.items self.now.text.now end result }
    {
        add_offsets_before(offsets, run, name)?;
        let x = self.child(Mark::Colon, end, depth + run.len(), offsets)?;
        let tree = self.with_letters(run, name, x.tree, offsets)?;
        Ok(Part { tree, end: x.end })
    }

    /// A mark that has to stand here, and the expression behind it.
    #[cycle(reader)]
    fn child(
        &self,
        mark: Mark,
        at: usize,
        depth: usize,
        offsets: &mut Vec<u32>,
    ) -> Result<Part<'a>, TextFault>
        requires place { IsPlace self.now.text.now at }
        requires depth { depth ≤ MOST_WRITTEN_DEPTH }
        ensures part { IfOk result (λ r. IsPart self.now.text.now (at + 1) depth (shape r.tree) r.end) }
        ensures reads { ReadsBehind mark depth offsets.old.items offsets.new.items self.now.text.now at result }
    {
        let at = behind_mark(self.text, at, mark)?;
        self.expression(at, depth, offsets)
    }

    /// The rest of a fragment behind its name.
    #[cycle(reader)]
    fn fragment(
        &self,
        form: Form,
        name: usize,
        at: usize,
        depth: usize,
        offsets: &mut Vec<u32>,
    ) -> Result<Part<'a>, TextFault>
        requires place { IsPlace self.now.text.now at }
        requires before { name < at }
        requires depth { depth < MOST_WRITTEN_DEPTH }
        ensures part { IfOk result (λ r. IsPart self.now.text.now name depth (shape r.tree) r.end) }
        ensures reads { ReadsForm form name depth offsets.old.items offsets.new.items self.now.text.now at result }
    {
        match form {
            Form::Zero => bare_form(self.zero(), name, at, offsets),
            Form::One => bare_form(self.one(), name, at, offsets),
            Form::Leaf(leaf) => self.leaf_form(leaf, name, at, offsets),
            Form::AndOr => self.and_or_form(name, at, depth, offsets),
            Form::Pair(pair) => self.pair_form(pair, name, at, depth, offsets),
            Form::Thresh => self.thresh_form(name, at, depth, offsets),
            Form::Multi => self.multi_form(name, at, offsets),
        }
    }

    /// The rest of `andor(x,y,z)` behind its name.
    #[cycle(reader)]
    fn and_or_form(
        &self,
        name: usize,
        at: usize,
        depth: usize,
        offsets: &mut Vec<u32>,
    ) -> Result<Part<'a>, TextFault>
        requires place { IsPlace self.now.text.now at }
        requires before { name < at }
        requires depth { depth < MOST_WRITTEN_DEPTH }
        ensures part { IfOk result (λ r. IsPart self.now.text.now name depth (shape r.tree) r.end) }
        ensures reads { ReadsWanted (machine.andor_open name) depth offsets.old.items offsets.new.items self.now.text.now at result }
    {
        let x = self.child(Mark::Open, at, depth + 1, offsets)?;
        let y = self.child(Mark::Comma, x.end, depth + 1, offsets)?;
        let z = self.child(Mark::Comma, y.end, depth + 1, offsets)?;
        self.closed_and_or(name, x.tree, y.tree, z, offsets)
    }

    /// The `)` that has to stand behind the children of an `andor`, of which `z` is the last, and its tree.
    fn closed_and_or(
        &self,
        name: usize,
        x: Tree<'a>,
        y: Tree<'a>,
        z: Part<'a>,
        offsets: &mut Vec<u32>,
    ) -> Result<Part<'a>, TextFault>
        requires place { IsPlace self.now.text.now z.end }
        requires before { name < z.end }
        requires range { IsInRange (model.and_or (shape x) (shape y) (shape z.tree)) }
        ensures tree { IfOk result (λ r. shape r.tree ≡ model.and_or (shape x.entry) (shape y.entry) (shape z.entry.tree)) }
        ensures end { IfOk result (λ r. r.end ≡ z.entry.end + 1) }
        ensures place { IfOk result (λ r. IsPlace self.now.text.now r.end) }
        ensures reads { ReadsClosed (machine.ended (shape z.entry.tree)) (machine.andor_third (shape x.entry) (shape y.entry) name)
            offsets.old.items offsets.new.items self.now.text.now z.entry.end result }
    {
        let end = behind_mark(self.text, z.end, Mark::Close)?;
        let tree = new_and_or(self.arena, x, y, z.tree)?;
        add_offset(offsets, name)?;
        Ok(Part { tree, end })
    }

    /// The rest of a fragment of two children behind its name.
    #[cycle(reader)]
    fn pair_form(
        &self,
        pair: Pair,
        name: usize,
        at: usize,
        depth: usize,
        offsets: &mut Vec<u32>,
    ) -> Result<Part<'a>, TextFault>
        requires place { IsPlace self.now.text.now at }
        requires before { name < at }
        requires depth { depth < MOST_WRITTEN_DEPTH }
        ensures part { IfOk result (λ r. IsPart self.now.text.now name depth (shape r.tree) r.end) }
        ensures reads { ReadsWanted (machine.pair_open (pair_of pair) name) depth offsets.old.items offsets.new.items self.now.text.now at result }
    {
        let x = self.child(Mark::Open, at, depth + 1, offsets)?;
        let y = self.child(Mark::Comma, x.end, depth + 1, offsets)?;
        self.closed_pair(pair, name, x.tree, y, offsets)
    }

    /// The `)` that has to stand behind the children of a fragment of two, of which `y` is the last, and its tree.
    fn closed_pair(
        &self,
        pair: Pair,
        name: usize,
        x: Tree<'a>,
        y: Part<'a>,
        offsets: &mut Vec<u32>,
    ) -> Result<Part<'a>, TextFault>
        requires place { IsPlace self.now.text.now y.end }
        requires before { name < y.end }
        requires room { HaveRoom (shape x) (shape y.tree) }
        ensures tree { IfOk result (λ r. shape r.tree ≡ machine.pair_tree (pair_of pair) (shape x.entry) (shape y.entry.tree)) }
        ensures end { IfOk result (λ r. r.end ≡ y.entry.end + 1) }
        ensures place { IfOk result (λ r. IsPlace self.now.text.now r.end) }
        ensures reads { ReadsClosed (machine.ended (shape y.entry.tree)) (machine.pair_second (pair_of pair) (shape x.entry) name)
            offsets.old.items offsets.new.items self.now.text.now y.entry.end result }
    {
        let end = behind_mark(self.text, y.end, Mark::Close)?;
        let tree = self.new_pair(pair, x, y.tree)?;
        add_pair_offsets(offsets, pair, name)?;
        Ok(Part { tree, end })
    }

    /// The rest of `thresh(k,x1,..,xn)` behind its name.
    #[cycle(reader)]
    fn thresh_form(
        &self,
        name: usize,
        at: usize,
        depth: usize,
        offsets: &mut Vec<u32>,
    ) -> Result<Part<'a>, TextFault>
        requires place { IsPlace self.now.text.now at }
        requires before { name < at }
        requires depth { depth < MOST_WRITTEN_DEPTH }
        ensures part { IfOk result (λ r. IsPart self.now.text.now name depth (shape r.tree) r.end) }
        ensures reads { ReadsWanted (machine.thresh_open name) depth offsets.old.items offsets.new.items self.now.text.now at result }
    {
        let at = behind_mark(self.text, at, Mark::Open)?;
        let k = number_at(self.text, at)?;
        let read = self.child_list(k.end, depth + 1, offsets)?;
        let tree = new_thresh(self.arena, k.value, read.trees)?;
        add_offset(offsets, name)?;
        Ok(Part {
            tree,
            end: read.end,
        })
    }

    /// One or more expressions that have to stand here, each behind a comma, and the `)` behind them.
    #[cycle(reader)]
    fn child_list(
        &self,
        at: usize,
        depth: usize,
        offsets: &mut Vec<u32>,
    ) -> Result<Children<'a>, TextFault>
        requires place { IsPlace self.now.text.now at }
        requires depth { depth ≤ MOST_WRITTEN_DEPTH }
        ensures parts { IfOk result (λ r. AreParts self.now.text.now (at + 1) depth (shapes r.trees.items) r.end) }
        ensures reads { ReadsChildren depth offsets.old.items offsets.new.items self.now.text.now at result }
    {
        let mut trees = Vec::new(self.alloc);
        let mut at = behind_mark(self.text, at, Mark::Comma)?;
        loop {
            let x = self.expression(at, depth, offsets)?;
            add_child(&mut trees, x.tree)?;
            let found = separator_at(self.text, x.end)?;
            at = x.end + 1;
            if found == Separator::Close {
                return Ok(Children { trees, end: at });
            }
        }
    }
}
