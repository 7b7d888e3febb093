//! Remainders of polynomials over the field of 32 elements.

ghost use Rattle.std.specs.Prelude.{◌≡◌, ◌%◌, ◌==◌, if◌then◌else◌};
ghost use Rattle.def_address.specs.Remainder.{chosen, remainder_with};
ghost use Rattle.def_address.specs.Bech32.{bech32_generators};
ghost use Rattle.def_address.specs.DescriptorSum.{descriptor_generators};

/// The generators of an address's checksum.
const BECH32_GENERATORS: [u64; 5] = [
    0x3b6a_57b2,
    0x2650_8e6d,
    0x1ea1_19fa,
    0x3d42_33dd,
    0x2a14_62b3,
];

/// 2^25: what is from there on chooses generators.
const BECH32_LOW: u64 = 0x0200_0000;

/// The generators of a descriptor's checksum.
const DESCRIPTOR_GENERATORS: [u64; 5] = [
    0x00f5_dee5_1989,
    0x00a9_fdca_3312,
    0x001b_ab10_e32d,
    0x0037_06b1_677a,
    0x0064_4d62_6ffd,
];

/// 2^35: what is from there on chooses generators.
const DESCRIPTOR_LOW: u64 = 0x0008_0000_0000;

/// A generator where the lowest bit is set, and else 0.
fn pick(bits: u64, generator: u64) -> u64
    ensures { result ≡ (if bits % 2 == 1 then generator else 0) }
{
    if bits % 2 == 1 { generator } else { 0 }
}

/// All generators whose bit is set, the lowest bit first.
fn chosen(generators: &[u64], bits: u64) -> u64
    ensures { result ≡ chosen generators.now bits }
{
    match generators {
        [] => 0,
        [generator, rest @ ..] => pick(bits, *generator) ^ chosen(rest, bits / 2),
    }
}

/// The remainder of an address with one value more.
pub fn address_with(remainder: u64, value: u64) -> u64
    ensures { result ≡ remainder_with 25 bech32_generators remainder value }
{
    (remainder % BECH32_LOW * 32) ^ value ^ chosen(&BECH32_GENERATORS, remainder / BECH32_LOW)
}

/// The remainder of a descriptor with one value more.
pub fn descriptor_with(remainder: u64, value: u64) -> u64
    ensures { result ≡ remainder_with 35 descriptor_generators remainder value }
{
    (remainder % DESCRIPTOR_LOW * 32)
        ^ value
        ^ chosen(&DESCRIPTOR_GENERATORS, remainder / DESCRIPTOR_LOW)
}
