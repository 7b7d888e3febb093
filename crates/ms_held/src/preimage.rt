//! Preimages, and the digests of them that were asked for.
ghost use Rattle.std.specs.Prelude.{◌≡◌, IfSome};
ghost use Rattle.std.specs.Str.{bytes_eq};
ghost use Rattle.def_hash.specs.Hash.{digest_of, sha256};
ghost use Rattle.ms_held.specs.Digests.{HashesTo};
ghost use Rattle.ms_hash.specs.Value.{kind_of, bytes_of};

use ms_hash::{HashKind, HashValue, hash_of, ripemd160, sha256};
use std::cell::OnceCell;
use std::marker::Model;

/// A preimage, beside which each digest is kept once it was asked for. Contracts see it as its 32 bytes.
#[derive(Debug, Drop)]
pub struct Preimage {
    bytes: [u8; 32],
    sha256: OnceCell<Kept>,
    hash256: OnceCell<Kept>,
    ripemd160: OnceCell<Kept>,
    hash160: OnceCell<Kept>,
}

impl Model for Preimage {
    ghost use Rattle.std.specs.Prelude.{ℕ, List};

    ghost Value = { List ℕ };

    ghost view = { λ p. p.bytes };
}

impl Preimage {
    /// The preimage of these bytes. Nothing is hashed yet.
    pub fn new(bytes: [u8; 32]) -> Preimage
        ensures { result ≡ bytes }
    {
        Preimage {
            bytes,
            sha256: OnceCell::new(),
            hash256: OnceCell::new(),
            ripemd160: OnceCell::new(),
            hash160: OnceCell::new(),
        }
    }

    /// The 32 bytes.
    pub(crate) fn as_array(&self) -> &[u8; 32]
        ensures { result.now ≡ self.now }
    {
        &self.bytes
    }

    /// Its 32 bytes.
    pub(crate) fn as_bytes(&self) -> &[u8]
        ensures { result.now ≡ self.now }
    {
        &self.bytes
    }

    /// Whether it hashes to a value. It is hashed by the value's function at the first such question.
    pub(crate) fn hashes_to(&self, value: &HashValue) -> bool
        ensures { result ≡ bytes_eq (digest_of (kind_of value.now) self.now) (bytes_of value.now) }
    {
        let kind = value.kind();
        if let Some(digest) = self.digest(kind) {
            return digest == value.as_bytes();
        }
        hash_of(kind, &self.bytes).as_bytes() == value.as_bytes()
    }

    /// The digest by the named function, which is kept from the first call on. `None` only after more calls than a cell counts.
    fn digest(&self, kind: HashKind) -> Option<&[u8]>
        ensures { IfSome result (λ digest. digest.now ≡ digest_of kind self.now) }
    {
        let cell = match kind {
            HashKind::Sha256 => &self.sha256,
            HashKind::Hash256 => &self.hash256,
            HashKind::Ripemd160 => &self.ripemd160,
            HashKind::Hash160 => &self.hash160,
        };
        let kept = cell.try_get_or_init(|| Kept::new(self.bytes, self.value_by(kind)))?;
        kept.digest(&self.bytes, kind)
    }

    /// The hash value of the bytes by the named function.
    #[tactic(auto, unfolding(def_hash::specs::Hash::hash256, def_hash::specs::Hash::hash160))]
    fn value_by(&self, kind: HashKind) -> HashValue
        ensures kind { kind_of result ≡ kind }
        ensures digest { bytes_of result ≡ digest_of kind self.now }
    {
        match kind {
            HashKind::Sha256 => HashValue::Sha256(sha256(&self.bytes)),
            HashKind::Hash256 => HashValue::Hash256(sha256(&self.once())),
            HashKind::Ripemd160 => HashValue::Ripemd160(ripemd160(&self.bytes)),
            HashKind::Hash160 => HashValue::Hash160(ripemd160(&self.once())),
        }
    }

    /// SHA-256 of the bytes, which HASH256 and HASH160 begin with. It is kept from the first call on.
    fn once(&self) -> [u8; 32]
        ensures { result ≡ sha256 self.now }
    {
        let cell = &self.sha256;
        let kept = cell.try_get_or_init(|| {
            Kept::new(self.bytes, HashValue::Sha256(sha256(&self.bytes)))
        });
        match kept.and_then(|kept| kept.sha256(&self.bytes)) {
            Some(digest) => digest,
            None => sha256(&self.bytes),
        }
    }
}

/// A hash value beside the preimage that it is of: what a cell holds is known by its type alone.
#[derive(Debug, Drop)]
struct Kept {
    preimage: [u8; 32],
    value: HashValue,
}

impl Model for Kept {
    ghost use Rattle.std.specs.Prelude.{⊤};
    ghost use Rattle.ms_held.specs.Digests.{HashesTo};

    ghost Value = { ⊤ };

    ghost view = { λ _. tt };

    ghost invariant = { λ k. HashesTo k.preimage k.value };
}

impl Kept {
    /// A hash value and its preimage.
    fn new(preimage: [u8; 32], value: HashValue) -> Kept
        requires { HashesTo preimage value }
    {
        Kept { preimage, value }
    }

    /// The digest of a preimage by the named function, where that is kept.
    fn digest(&self, preimage: &[u8; 32], kind: HashKind) -> Option<&[u8]>
        ensures { IfSome result (λ digest. digest.now ≡ digest_of kind preimage.now) }
    {
        if self.preimage == *preimage && self.value.kind() == kind {
            Some(self.value.as_bytes())
        } else {
            None
        }
    }

    /// SHA-256 of a preimage, where that is kept.
    fn sha256(&self, preimage: &[u8; 32]) -> Option<[u8; 32]>
        ensures { IfSome result (λ digest. digest ≡ sha256 preimage.now) }
    {
        match self.value {
            HashValue::Sha256(digest) if self.preimage == *preimage => Some(digest),
            _ => None,
        }
    }
}
