//! What is asked of `msat-psbt`, and the forms of a PSBT.

use def_spend::Verification;

/// What is asked of one PSBT, and which of its signatures count.
#[derive(Clone, Copy, Debug, PartialEq, Eq)]
pub enum Command {
    /// The PSBT with each input that is Ready made final.
    Finalize(Verification),
    /// What the transaction does with the money, and what each input is and lacks.
    Inspect(Verification),
    /// The network transaction.
    Extract,
    /// What the signatures of each input sign.
    Hashes(Verification),
    /// Whether the final fields of each input are valid.
    Verify,
}

/// What is asked of `msat-psbt`, each by words of its own.
#[derive(Clone, Copy, Debug, PartialEq, Eq)]
pub enum Request {
    /// This, of one PSBT.
    One(Command),
    /// The PSBT that holds what several of one transaction hold.
    Combine,
}

/// The form in which a PSBT came, and goes out.
#[derive(Clone, Copy, Debug, PartialEq, Eq)]
pub enum Form {
    /// Its bytes.
    Bytes,
    /// Their base64.
    Base64,
}
