//! What an interpreter asks of signatures.
ghost use Rattle.std.specs.Prelude.{◌≡◌};
ghost use Rattle.def_machine.specs.Stacks.{Checker};

/// What says which signatures are good (Bitcoin Core: `BaseSignatureChecker`, in script/interpreter.h).
pub trait SignatureChecker {
    // Which pairs of a key and a signature are good.
    ghost checker: { Self → Checker };

    // What has to hold of it where it is asked.
    ghost IsSound: { Self → Type 0 };

    /// Whether this signature is good with this key. Takes no memory, and never refuses.
    fn ask(&self, key: &[u8], sig: &[u8]) -> bool
        requires { IsSound self.now }
        ensures { result ≡ checker self.now key.now sig.now };
}
