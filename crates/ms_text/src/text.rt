//! Reading a text: its tree with the offsets of the nodes, or the first place that is wrong.
ghost use Rattle.std.specs.Prelude.{◌≢◌, ◌≡◌, ◌<◌, ◌≤◌, length, slice_index, IsUtf8, IfOk, IfErr};
ghost use Rattle.def_tree.specs.InRange.{IsInRange};
ghost use Rattle.def_tree.specs.Size.{nodes};
ghost use Rattle.def_text.specs.Refusal.{MOST_BYTES, TextReads, TextRefusal};
ghost use Rattle.ms_tree.specs.Shape.{shape};

use crate::reader::Reader;
use bumpalo::Bump;
use def_text::TextFault;
use ms_tree::Tree;
use std::alloc::Global;

/// How many bytes a text may have.
const MOST_BYTES_READ: usize = 65_536;

/// What a text is read as: its tree, and where each node was written.
#[derive(Drop)]
pub struct TextTree<'a> {
    /// The tree, without sugar.
    pub tree: Tree<'a>,
    /// The byte offset in the text of each node, in the order of the nodes' numbers: children before parents and left to right.
    /// A node has the offset of the name or letter that wrote it, and both nodes of a piece of sugar have its offset.
    pub offsets: Vec<u32>,
    pub ghost offset_each: { length offsets.items ≡ nodes (shape tree) },
}

impl<'a> TextTree<'a> {
    /// The tree, without sugar. Takes no memory.
    pub fn tree(&self) -> &Tree<'a>
        ensures { result.now ≡ self.now.tree }
    {
        &self.tree
    }

    /// The byte offset of the name or letter that wrote a node, which has to be one of the tree. Nodes are numbered from 0,
    /// children before parents and left to right. Takes no memory.
    pub fn offset(&self, node: u32) -> u32
        requires { node < nodes (shape self.now.tree) }
        ensures { result ≡ slice_index self.now.offsets.items node }
    {
        self.offsets[node as usize]
    }
}

/// The tree that a text spells (BIP 379, translation table and sugar), with the offset of each node. Refused by
/// - `TooLong`, exactly where it has over 65,536 bytes;
/// - `Syntax`, with the place of the first token that no spelled text has there, the end counting as a token;
/// - `TooDeep`, with the place of the first name or run of letters of written depth over 256.
///
/// Of the last two the one that stands first is given. Want of memory, `Memory`, may come in place of any answer but
/// `TooLong`. Numbers have up to ten digits here: their ranges are rules of the types.
pub fn read_text<'a>(
    alloc: Global,
    arena: &'a Bump<Global>,
    text: &str,
) -> Result<TextTree<'a>, TextFault>
    ensures read { IfOk result (λ t. TextReads text.now (shape t.tree) t.offsets.items) }
    ensures refused { IfErr result (λ e. e ≢ TextFault.Memory → TextRefusal text.now e) }
    ensures in_range { IfOk result (λ t. IsInRange (shape t.tree)) }
    // Memory is wanting only where the text isn't too long.
    ensures memory { IfErr result (λ e. e ≡ TextFault.Memory → length text.now ≤ MOST_BYTES) }
{
    if text.len() > MOST_BYTES_READ {
        return Err(TextFault::TooLong);
    }
    read_bytes(alloc, arena, text.as_bytes())
}

/// The same for a text that isn't too long.
fn read_bytes<'a>(
    alloc: Global,
    arena: &'a Bump<Global>,
    text: &[u8],
) -> Result<TextTree<'a>, TextFault>
    requires utf8 { IsUtf8 text.now }
    requires short { length text.now ≤ MOST_BYTES }
    ensures read { IfOk result (λ t. TextReads text.now (shape t.tree) t.offsets.items) }
    ensures refused { IfErr result (λ e. e ≢ TextFault.Memory → TextRefusal text.now e) }
    ensures in_range { IfOk result (λ t. IsInRange (shape t.tree)) }
{
    let reader = Reader::new(alloc, arena, text)?;
    reader.text_tree()
}

impl<'a> Reader<'a, '_> {
    /// The tree that the text spells, with the offset of each node.
    fn text_tree(&self) -> Result<TextTree<'a>, TextFault>
        requires utf8 { IsUtf8 self.now.text.now }
        requires short { length self.now.text.now ≤ MOST_BYTES }
        ensures read { IfOk result (λ t. TextReads self.now.text.now (shape t.tree) t.offsets.items) }
        ensures refused { IfErr result (λ e. e ≢ TextFault.Memory → TextRefusal self.now.text.now e) }
        ensures in_range { IfOk result (λ t. IsInRange (shape t.tree)) }
    {
        let mut offsets = Vec::new(self.alloc);
        let part = self.expression(0, 0, &mut offsets)?;
        if part.end < self.text.len() {
            return Err(TextFault::Syntax(part.end as u32));
        }
        Ok(TextTree {
            tree: part.tree,
            offsets,
        })
    }
}
