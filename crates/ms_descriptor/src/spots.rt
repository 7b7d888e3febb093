//! Where a key may stand in a miniscript: behind the `(` of a fragment of one key, and behind each comma of a `multi`.

ghost use Rattle.std.specs.Prelude.{◌≡◌};
ghost use Rattle.std.specs.List.{list_any};
ghost use Rattle.std.specs.Str.{bytes_eq};
ghost use Rattle.def_descriptor.specs.Pieces.{KEY_NAMES, takes_key as the_takes_key, follows_key as the_follows_key, spot_within as the_spot_within, spot_behind as the_spot_behind, spot_behind_key as the_spot_behind_key};
ghost use Rattle.ms_descriptor.specs.Expressions.{spot_at};

/// A place in a miniscript, by what stands before it.
#[derive(Clone, Copy, PartialEq, Eq)]
pub enum Spot {
    /// No key may stand here or soon.
    Elsewhere,
    /// Behind the name of a fragment of one key.
    SingleName,
    /// Behind its `(`.
    SingleKey,
    /// Behind its key.
    SingleNext,
    /// Behind `multi`.
    MultiName,
    /// Behind its `(`.
    MultiOpen,
    /// Behind its number.
    MultiNumber,
    /// Behind a comma.
    MultiKey,
    /// Behind a key.
    MultiNext,
}

impl Spot {
    /// Whether a key stands here.
    pub fn takes_key(self) -> bool
        ensures { result ≡ the_takes_key (spot_at self) }
    {
        matches!(self, Spot::SingleKey | Spot::MultiKey)
    }

    /// Whether a key stands right before.
    pub fn follows_key(self) -> bool
        ensures { result ≡ the_follows_key (spot_at self) }
    {
        matches!(self, Spot::SingleNext | Spot::MultiNext)
    }

    /// The place behind one more token, which begins no fragment.
    fn within(self, token: &[u8]) -> Spot
        ensures { spot_at result ≡ the_spot_within (spot_at self) token.now }
    {
        match self {
            Spot::SingleName if token == b"(".as_slice() => Spot::SingleKey,
            Spot::MultiName if token == b"(".as_slice() => Spot::MultiOpen,
            Spot::MultiOpen => Spot::MultiNumber,
            Spot::MultiNumber | Spot::MultiNext if token == b",".as_slice() => Spot::MultiKey,
            _ => Spot::Elsewhere,
        }
    }

    /// The place behind one more token.
    pub fn behind(self, token: &[u8]) -> Spot
        ensures { spot_at result ≡ the_spot_behind (spot_at self) token.now }
    {
        if is_key_name(token) {
            return Spot::SingleName;
        }
        if token == b"multi".as_slice() {
            return Spot::MultiName;
        }
        self.within(token)
    }

    /// The place behind a key.
    pub fn behind_key(self) -> Spot
        ensures { spot_at result ≡ the_spot_behind_key (spot_at self) }
    {
        match self {
            Spot::MultiKey => Spot::MultiNext,
            _ => Spot::SingleNext,
        }
    }
}

/// Whether a token is the name of a fragment of one key.
fn is_key_name(token: &[u8]) -> bool
    ensures { result ≡ list_any (bytes_eq token.now) KEY_NAMES }
{
    token == b"pk_k".as_slice()
        || token == b"pk_h".as_slice()
        || token == b"pk".as_slice()
        || token == b"pkh".as_slice()
}
