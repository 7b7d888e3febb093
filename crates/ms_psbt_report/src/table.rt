//! What the signatures of an input sign, each hash made once.
ghost use Rattle.std.specs.Prelude.{◌≡◌, slice_get};
ghost use Rattle.def_spend.specs.Hashes.{hash_by};
ghost use Rattle.def_spend.specs.Input.{Spend};
ghost use Rattle.ms_sighash.specs.Shared.{shared_of, IsOutputText};
ghost use Rattle.ms_psbt_report.specs.Scaffolding.Tables.{IsTable};

use ms_input::Input;
use ms_sighash::SharedHashes;

/// What the signatures of an input sign, by hash type: as many signatures as there may be, the Script is hashed six times.
#[derive(Clone, Copy, Debug)]
pub struct HashTable {
    /// Of ALL.
    pub all: Option<[u8; 32]>,
    /// Of NONE.
    pub none: Option<[u8; 32]>,
    /// Of SINGLE.
    pub single: Option<[u8; 32]>,
    /// Of ALL with ANYONECANPAY.
    pub all_open: Option<[u8; 32]>,
    /// Of NONE with ANYONECANPAY.
    pub none_open: Option<[u8; 32]>,
    /// Of SINGLE with ANYONECANPAY.
    pub single_open: Option<[u8; 32]>,
}

impl HashTable {
    /// The hashes of an input, by what all signatures of the transaction share, and the bytes of its output with the input's
    /// number, where there is one.
    pub fn new(input: &Input<'_, '_>, shared: &SharedHashes, output: Option<&[u8]>) -> HashTable
        requires shared { shared.now ≡ shared_of input.now.spend.transaction }
        requires output { IsOutputText (slice_get input.now.spend.transaction.outputs input.now.spend.number) output }
        ensures { IsTable input.now.spend result }
    {
        HashTable {
            all: input.hash_by(shared, output, 0x01),
            none: input.hash_by(shared, output, 0x02),
            single: input.hash_by(shared, output, 0x03),
            all_open: input.hash_by(shared, output, 0x81),
            none_open: input.hash_by(shared, output, 0x82),
            single_open: input.hash_by(shared, output, 0x83),
        }
    }

    /// What a signature signs whose hash type has this number, where it is one.
    pub fn hash_by(&self, number: u32) -> Option<[u8; 32]>
        ensures { (spend : Spend) → IsTable spend self.now → result ≡ hash_by number spend }
    {
        match number {
            0x01 => self.all,
            0x02 => self.none,
            0x03 => self.single,
            0x81 => self.all_open,
            0x82 => self.none_open,
            0x83 => self.single_open,
            _ => None,
        }
    }
}
