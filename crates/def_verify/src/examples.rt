//! Examples of the definitions: the body does nothing, and its contract is the examples.

ghost use Rattle.def_verify.specs.Examples.{OtherBytes, Native, Nested, KeyHash, Other};

/// What bytes sign that are no hash type.
pub fn hashes()
    ensures other_bytes { OtherBytes }
{}

/// What final fields have consensus run.
pub fn executions()
    ensures native { Native }
    ensures nested { Nested }
    ensures key_hash { KeyHash }
    ensures other { Other }
{}
