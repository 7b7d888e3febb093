//! The address of an output.

ghost use Rattle.std.specs.Prelude.{◌≡◌, ◌==◌, ◌&&◌, length, take, drop, IfOk, MatchOption, None, Some};
ghost use Rattle.std.specs.Str.{bytes_eq};
ghost use Rattle.def_address.specs.Bech32.{is_program};
ghost use Rattle.def_address.specs.Address.{human_of, version_of, program_output, hash_output, hash_address, address_of};

use crate::base58::base58_check;
use crate::bech32::program_address;
use def_address::Network;
use std::alloc::{AllocError, Global};

/// The human-readable part of a network's addresses.
fn human_of(network: Network) -> &'static [u8]
    ensures { result.now ≡ human_of network }
{
    match network {
        Network::Main => b"bc",
        Network::Test => b"tb",
        Network::Regtest => b"bcrt",
    }
}

/// The version of the hash of a Script.
fn version_of(network: Network) -> u8
    ensures { result ≡ version_of network }
{
    match network {
        Network::Main => 5,
        Network::Test | Network::Regtest => 0xc4,
    }
}

/// The address of the hash of a Script (BIP 13). The only refusal is want of memory.
pub fn hash_address(alloc: Global, network: Network, hash: &[u8]) -> Result<Vec<u8>, AllocError>
    ensures { IfOk result (λ text. text.items ≡ hash_address network hash.now) }
{
    let mut bytes = Vec::new(alloc);
    bytes.push(version_of(network))?;
    bytes.extend_from_slice(hash)?;
    base58_check(alloc, &bytes)
}

/// Whether an output is one of a program of version 0 (BIP 141).
fn is_program_output(script: &[u8]) -> bool
    ensures { let program = drop 2 script.now in result ≡ (bytes_eq script.now (program_output program) && is_program program) }
{
    match script {
        [0, length, program @ ..] => {
            let count = program.len();
            usize::from(*length) == count && (count == 20 || count == 32)
        }
        _ => false,
    }
}

/// Whether an output is one of the hash of a Script (BIP 16).
fn is_hash_output(script: &[u8]) -> bool
    ensures { let hash = take 20 (drop 2 script.now) in result ≡ (bytes_eq script.now (hash_output hash) && (length hash == 20)) }
{
    if script.len() != 23 {
        return false;
    }
    if script[0] != 0xa9 {
        return false;
    }
    if script[1] != 0x14 {
        return false;
    }
    script[22] == 0x87
}

/// The address of an output's script on a network: none but of P2WPKH, P2WSH and P2SH. The only refusal is want of memory.
pub fn address_of(
    alloc: Global,
    network: Network,
    script: &[u8],
) -> Result<Option<Vec<u8>>, AllocError>
    ensures { IfOk result (λ found. MatchOption found (address_of network script.now ≡ None)
        (λ text. address_of network script.now ≡ Some text.items)) }
{
    if is_program_output(script) {
        let text = program_address(alloc, human_of(network), &script[2..])?;
        return Ok(Some(text));
    }
    if is_hash_output(script) {
        let text = hash_address(alloc, network, &script[2..22])?;
        return Ok(Some(text));
    }
    Ok(None)
}
