//! Examples of nesting, of Scripts that several miniscripts have, and of listed keys.

ghost use Rattle.def_decode.specs.Examples.{NestedOnes, OtherOnes, MovedScripts, MovedTypes, FirstOfTwo, NotListed};

/// These miniscripts are nested to the right, or aren't.
pub fn nested()
    ensures nested_ones { NestedOnes }
    ensures other_ones { OtherOnes }
{}

/// A Script and a type stay where an `and_v` is moved outwards.
pub fn scripts()
    ensures moved_scripts { MovedScripts }
    ensures moved_types { MovedTypes }
{}

/// The first listed key with a hash, or that there is none.
pub fn keys()
    ensures first_of_two { FirstOfTwo }
    ensures not_listed { NotListed }
{}
