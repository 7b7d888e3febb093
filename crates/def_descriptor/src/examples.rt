//! Examples of the definitions: the body does nothing, and its contract is the examples.

ghost use Rattle.def_descriptor.specs.Examples.{SumOfAnotherText, StepTooDeep, HardenedStep, HardenedIndex, KeyMistyped, KeyOfAnotherVersion, NumberTwice, SecondMultipath, KeyWithoutPoint, PrivateKey, NoClosing, StepTooLarge, MarkInUpperCase, OtherKind, OtherKindUnder, LongText, DeepMiniscript, PrivateKeyInMiniscript, SyntaxBeforeKey, WordBehindIndex, LengthsApart, NetworksApart, Bip84, Bip49, Bip173, Bip67};

/// Descriptors of one key that are refused.
pub fn keys_refused()
    ensures sum { SumOfAnotherText }
    ensures depth { StepTooDeep }
    ensures hardened { HardenedStep }
    ensures hardened_index { HardenedIndex }
    ensures mistyped { KeyMistyped }
    ensures version { KeyOfAnotherVersion }
    ensures twice { NumberTwice }
    ensures second { SecondMultipath }
    ensures no_point { KeyWithoutPoint }
    ensures private { PrivateKey }
    ensures end { NoClosing }
    ensures large { StepTooLarge }
    ensures mark { MarkInUpperCase }
{}

/// Other texts that are refused.
pub fn texts_refused()
    ensures other { OtherKind }
    ensures other_under { OtherKindUnder }
    ensures long { LongText }
    ensures deep { DeepMiniscript }
    ensures private { PrivateKeyInMiniscript }
    ensures syntax { SyntaxBeforeKey }
    ensures word { WordBehindIndex }
    ensures lengths { LengthsApart }
    ensures networks { NetworksApart }
{}

/// What descriptors give.
pub fn outputs_given()
    ensures bip84 { Bip84 }
    ensures bip49 { Bip49 }
    ensures bip173 { Bip173 }
    ensures bip67 { Bip67 }
{}
