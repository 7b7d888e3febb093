//! What the definitions imply.

ghost use Rattle.ms_print_laws.specs.Laws.{PrintedApart, PolicyIsPrintable, PoliciesApart};

/// Policies that are printed alike are the same, where keys and hash values consist of bytes and numbers have 64 bits at
/// most, as in the policy of every miniscript.
pub fn printed()
    ensures apart { PrintedApart }
    ensures printable { PolicyIsPrintable }
    ensures of_miniscripts { PoliciesApart }
{}
