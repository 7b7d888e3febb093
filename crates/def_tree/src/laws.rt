//! What the definitions imply.

ghost use Rattle.def_tree.specs.Laws.{NodesAreAll, RootIsLast};

/// The list of nodes has them all, children before parents and left to right.
pub fn nodes()
    ensures all { NodesAreAll }
    ensures order { RootIsLast }
{}
