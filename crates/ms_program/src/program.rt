//! The program of an output.

ghost use Rattle.std.specs.Prelude.{◌≡◌};
ghost use Rattle.def_machine.specs.Program.{program_of as the_program_of};

use ms_hash::sha256;

/// The program of the P2WSH output of a Script (BIP 141): version 0, and a push of the 32 bytes of the Script's
/// SHA-256. Takes no memory and never refuses.
pub fn program_of(script: &[u8]) -> [u8; 34]
    ensures { result ≡ the_program_of script.now }
{
    let mut program = [0; 34];
    program[1] = 0x20;
    program[2..].copy_from_slice(&sha256(script));
    program
}
