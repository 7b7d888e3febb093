//! Examples of the definitions: the body does nothing, and its contract is the examples.

ghost use Rattle.def_text.specs.Examples.{TokensOfAndV, TokensOfNothing, TokensBeyondAscii, NumberZero, NumberOfTenDigits, NoNumberOfElevenDigits, NoNumberAfterZero, KeyInUpperCase, NoUncompressedKey, PkIsSpelled, OrDIsSpelled, SugarIsSpelled, GroupIsSpelled, NothingIsRefused, NoNameIsRefused, ShortKeyIsRefused, LeadingZeroIsRefused, SpaceIsRefused, OpenParenthesisIsRefused, SecondParenthesisIsRefused, LettersAreRead, NameIsTooDeep, RunIsTooDeep, LoneRunIsTooDeep, NestedLetterIsTooDeep, DepthComesFirst, SyntaxComesFirst, RunAsNumberIsWrong, NoNameIsNotDeep, LongTextIsRefused, PrintedWithoutSugar, PrintedPk, PrintedNumber};
ghost use Rattle.def_text.specs.FormExamples.{ConstantsAreRead, KeysAreRead, LocksAreRead, HashesAreRead, MultiIsRead, AndorIsRead, PairsAreRead, ThreshIsRead, WrappersAreRead, GroupsAreRead, KeySugarIsRead, AndNIsRead, LetterSugarIsRead};

/// Tokens of texts.
pub fn tokens_hold()
    ensures and_v { TokensOfAndV }
    ensures nothing { TokensOfNothing }
    ensures beyond_ascii { TokensBeyondAscii }
{}

/// Numbers and keys.
pub fn words_hold()
    ensures zero { NumberZero }
    ensures ten_digits { NumberOfTenDigits }
    ensures eleven_digits { NoNumberOfElevenDigits }
    ensures leading_zero { NoNumberAfterZero }
    ensures upper_case { KeyInUpperCase }
    ensures uncompressed { NoUncompressedKey }
{}

/// Texts and their trees.
pub fn trees_hold()
    ensures pk { PkIsSpelled }
    ensures or_d { OrDIsSpelled }
    ensures sugar { SugarIsSpelled }
    ensures group { GroupIsSpelled }
{}

/// Each fragment, wrapper and piece of sugar, read and printed.
pub fn forms_hold()
    ensures constants { ConstantsAreRead }
    ensures keys { KeysAreRead }
    ensures locks { LocksAreRead }
    ensures hashes { HashesAreRead }
    ensures multi { MultiIsRead }
    ensures andor { AndorIsRead }
    ensures pairs { PairsAreRead }
    ensures thresh { ThreshIsRead }
    ensures wrappers { WrappersAreRead }
    ensures groups { GroupsAreRead }
    ensures key_sugar { KeySugarIsRead }
    ensures and_n { AndNIsRead }
    ensures letter_sugar { LetterSugarIsRead }
{}

/// Texts that are refused, and one that is just read.
pub fn refusals_hold()
    ensures nothing { NothingIsRefused }
    ensures no_name { NoNameIsRefused }
    ensures short_key { ShortKeyIsRefused }
    ensures leading_zero { LeadingZeroIsRefused }
    ensures space { SpaceIsRefused }
    ensures open_parenthesis { OpenParenthesisIsRefused }
    ensures second_parenthesis { SecondParenthesisIsRefused }
    ensures letters { LettersAreRead }
    ensures deep_name { NameIsTooDeep }
    ensures deep_run { RunIsTooDeep }
    ensures lone_run { LoneRunIsTooDeep }
    ensures nested { NestedLetterIsTooDeep }
    ensures depth_first { DepthComesFirst }
    ensures syntax_first { SyntaxComesFirst }
    ensures run_as_number { RunAsNumberIsWrong }
    ensures no_name_behind_letters { NoNameIsNotDeep }
    ensures long { LongTextIsRefused }
{}

/// Printed forms.
pub fn prints_hold()
    ensures sugar { PrintedWithoutSugar }
    ensures pk { PrintedPk }
    ensures number { PrintedNumber }
{}
