//! The Script that an input has to satisfy.

ghost use Rattle.std.specs.Prelude.{◌≡◌};
ghost use Rattle.ms_input.specs.Spending.{code_seen};

/// The Script that an input has to satisfy, and that its signatures sign (BIP 143, `scriptCode`); it is run with the items of the witness
/// that are its stack.
#[derive(Clone, Copy, Debug)]
pub enum ScriptCode<'a> {
    /// A witness script: what the map has, or no byte, or the last item of a final witness, whose stack is the others.
    Witness(&'a [u8]),
    /// That of the HASH160 of a public key, which a program has; its stack is all items.
    KeyHash([u8; 25]),
}

impl ScriptCode<'_> {
    /// Its bytes. Takes no memory.
    pub fn as_slice(&self) -> &[u8]
        ensures { result.now ≡ code_seen self.now }
    {
        match self {
            ScriptCode::Witness(script) => script,
            ScriptCode::KeyHash(script) => script.as_slice(),
        }
    }
}
