//! The programs of keys and of Scripts (BIP 141), their outputs (BIP 16), and the network of a descriptor's addresses.

ghost use Rattle.std.specs.Prelude.{◌≡◌, IfOk};
ghost use Rattle.std.specs.Option.{option_map};
ghost use Rattle.def_machine.specs.Program.{program_of};
ghost use Rattle.def_descriptor.specs.ReadKey.{version_of as the_version_of};
ghost use Rattle.def_descriptor.specs.Gives.{key_program as the_key_program, output_of as the_output_of, network_by};
ghost use Rattle.ms_derive.specs.Nodes.{version_number};
ghost use Rattle.ms_descriptor.specs.Expressions.{expression_at};
ghost use Rattle.ms_outputs.specs.Keys.{expressions_in, expressions_of_body, first_version};

use def_address::Network;
use ms_derive::Version;
use ms_descriptor::{Body, Expression, Named, Piece};
use ms_hash::{hash160, sha256};
use ms_tree::Key;
use std::alloc::{AllocError, Global};

/// The program of a key.
pub fn key_program(alloc: Global, key: &Key) -> Result<Vec<u8>, AllocError>
    ensures { IfOk result (λ program. program.items ≡ the_key_program key.now) }
{
    let mut program = Vec::new(alloc);
    program.extend_from_slice(&[0x00, 0x14])?;
    program.extend_from_slice(&hash160(key.as_bytes()))?;
    Ok(program)
}

/// The program of a Script.
pub fn script_program(alloc: Global, script: &[u8]) -> Result<Vec<u8>, AllocError>
    ensures { IfOk result (λ program. program.items ≡ program_of script.now) }
{
    let mut program = Vec::new(alloc);
    program.extend_from_slice(&[0x00, 0x20])?;
    program.extend_from_slice(&sha256(script))?;
    Ok(program)
}

/// The output's script of a program: with `sh` that of its hash.
pub fn output_of(alloc: Global, under: bool, program: &[u8]) -> Result<Vec<u8>, AllocError>
    ensures { IfOk result (λ output. output.items ≡ the_output_of under program.now) }
{
    if !under {
        return Vec::from_slice(alloc, program);
    }
    let mut output = Vec::new(alloc);
    output.extend_from_slice(&[0xa9, 0x14])?;
    output.extend_from_slice(&hash160(program))?;
    output.push(0x87)?;
    Ok(output)
}

/// The version of an expression's extended key, if it has one.
fn version_of(expression: &Expression) -> Option<Version>
    ensures { option_map version_number result ≡ the_version_of (expression_at expression.now).named }
{
    match &expression.named {
        Named::Point(_) => None,
        Named::Extended(key, _) => Some(key.version),
    }
}

/// The version of the extended keys among pieces, if there are any: all have the same.
fn version_in(pieces: &[Piece]) -> Option<Version>
    ensures { option_map version_number result ≡ first_version (expressions_in pieces.now) }
{
    for piece in pieces {
        if let Piece::Key(expression) = piece {
            if let Some(version) = version_of(expression) {
                return Some(version);
            }
        }
    }
    None
}

/// The network of a version: that of test where it is that of a `tpub`.
fn network_by_version(version: Option<Version>) -> Network
    ensures { result ≡ network_by (option_map version_number version) }
{
    match version {
        Some(Version::Tpub) => Network::Test,
        Some(Version::Xpub) => Network::Main,
        None => Network::Main,
    }
}

/// The network of a body: that of test where it has a `tpub`.
pub fn network_of(body: &Body) -> Network
    ensures { result ≡ network_by (first_version (expressions_of_body body.now)) }
{
    network_by_version(match body {
        Body::Miniscript(pieces) => version_in(pieces),
        Body::Sorted(_, pieces) => version_in(pieces),
        Body::Single(expression) => version_of(expression),
    })
}
