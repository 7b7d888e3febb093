//! The types of keys in the maps of a PSBT, by their names without `PSBT_` (BIP 174, "Defined Types"; BIP 370, "Specification").

// The global map.

/// The unsigned transaction.
pub const GLOBAL_UNSIGNED_TX: u64 = 0x00;

/// The transaction's version.
pub const GLOBAL_TX_VERSION: u64 = 0x02;

/// The lock time where no input asks for one.
pub const GLOBAL_FALLBACK_LOCKTIME: u64 = 0x03;

/// How many inputs there are.
pub const GLOBAL_INPUT_COUNT: u64 = 0x04;

/// How many outputs there are.
pub const GLOBAL_OUTPUT_COUNT: u64 = 0x05;

/// What others may still change.
pub const GLOBAL_TX_MODIFIABLE: u64 = 0x06;

/// The version of the PSBT.
pub const GLOBAL_VERSION: u64 = 0xfb;

// A map of an input.

/// The transaction whose output is spent.
pub const IN_NON_WITNESS_UTXO: u64 = 0x00;

/// The output that is spent.
pub const IN_WITNESS_UTXO: u64 = 0x01;

/// A signature, by its key.
pub const IN_PARTIAL_SIG: u64 = 0x02;

/// The hash type that is asked.
pub const IN_SIGHASH_TYPE: u64 = 0x03;

/// The redeem script.
pub const IN_REDEEM_SCRIPT: u64 = 0x04;

/// The witness script.
pub const IN_WITNESS_SCRIPT: u64 = 0x05;

/// The path to a key.
pub const IN_BIP32_DERIVATION: u64 = 0x06;

/// The final scriptSig.
pub const IN_FINAL_SCRIPTSIG: u64 = 0x07;

/// The final witness.
pub const IN_FINAL_SCRIPTWITNESS: u64 = 0x08;

/// A preimage, by its RIPEMD-160.
pub const IN_RIPEMD160: u64 = 0x0a;

/// A preimage, by its SHA-256.
pub const IN_SHA256: u64 = 0x0b;

/// A preimage, by its HASH160.
pub const IN_HASH160: u64 = 0x0c;

/// A preimage, by its HASH256.
pub const IN_HASH256: u64 = 0x0d;

/// The id of the transaction whose output is spent.
pub const IN_PREVIOUS_TXID: u64 = 0x0e;

/// The number of the output that is spent.
pub const IN_OUTPUT_INDEX: u64 = 0x0f;

/// The input's sequence.
pub const IN_SEQUENCE: u64 = 0x10;

/// The least time for a lock time.
pub const IN_REQUIRED_TIME_LOCKTIME: u64 = 0x11;

/// The least height for a lock time.
pub const IN_REQUIRED_HEIGHT_LOCKTIME: u64 = 0x12;

// A map of an output.

/// The redeem script.
pub const OUT_REDEEM_SCRIPT: u64 = 0x00;

/// The witness script.
pub const OUT_WITNESS_SCRIPT: u64 = 0x01;

/// The path to a key.
pub const OUT_BIP32_DERIVATION: u64 = 0x02;

/// The amount in satoshis.
pub const OUT_AMOUNT: u64 = 0x03;

/// The script.
pub const OUT_SCRIPT: u64 = 0x04;
