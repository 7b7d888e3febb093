//! The types of all nodes of a text's tree, and how a type is printed.
ghost use Rattle.std.specs.Prelude.{◌≡◌, ◌++◌, map, IfOk, OnOk};
ghost use Rattle.std.specs.String.{string_bytes};
ghost use Rattle.def_tree.specs.InRange.{IsInRange};
ghost use Rattle.def_tree.specs.Nodes.{all_nodes};
ghost use Rattle.def_types.specs.Correctness.{correctness_of};
ghost use Rattle.def_types.specs.Malleable.{malleability_of};
ghost use Rattle.ms_tree.specs.Shape.{shape};
ghost use Rattle.ms_types.specs.Told.{told};
ghost use Rattle.ms_outline.specs.Scaffolding.Typed.{told_type};

use crate::letters::push_letters;
use ms_tree::Tree;
use ms_types::{
    CorrectnessType, MalleabilityProperties, correctness_of_nodes, malleability_of_nodes,
};
use std::alloc::{AllocError, Global};

/// The types of the nodes of a tree, each of what stands below the node alone, in the order of the nodes' numbers; none where
/// a rule is broken there.
#[derive(Drop)]
pub struct NodeTypes {
    /// The correctness types.
    pub correctness: Vec<Option<CorrectnessType>>,
    /// The malleability properties.
    pub malleability: Vec<Option<MalleabilityProperties>>,
}

impl NodeTypes {
    /// The types of the nodes of a tree. `AllocError` comes only where memory is wanting.
    pub fn new(alloc: Global, tree: &Tree<'_>) -> Result<NodeTypes, AllocError>
        requires { IsInRange (shape tree.now) }
        ensures correctness { IfOk result (λ types. types.correctness.items ≡ map (λ t. told (correctness_of t)) (all_nodes (shape tree.now))) }
        ensures malleability { IfOk result (λ types. types.malleability.items ≡ map (λ t. told (malleability_of t)) (all_nodes (shape tree.now))) }
    {
        let correctness = correctness_of_nodes(alloc, tree)?;
        let malleability = malleability_of_nodes(alloc, tree)?;
        Ok(NodeTypes {
            correctness,
            malleability,
        })
    }
}

/// No property of malleability.
const NO_LETTERS: MalleabilityProperties = MalleabilityProperties {
    s: false,
    f: false,
    e: false,
};

/// Adds a part's type: `-` where a rule is broken; `?` behind the correctness type where a requirement of malleability is false.
pub fn push_type(
    report: &mut String,
    ty: Option<CorrectnessType>,
    properties: Option<MalleabilityProperties>,
) -> Result<(), AllocError>
    ensures { OnOk result (string_bytes report.new ≡ string_bytes report.old ++ told_type ty properties) }
{
    match (ty, properties) {
        (None, _) => report.push_str("-"),
        (Some(ty), None) => {
            push_letters(report, ty, NO_LETTERS)?;
            report.push_str("?")
        }
        (Some(ty), Some(properties)) => push_letters(report, ty, properties),
    }
}
