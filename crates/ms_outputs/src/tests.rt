//! What the descriptors of some rows give: addresses and texts are those of Bitcoin Core and of the BIPs.

use crate::give;
use def_address::Network;
use ms_descriptor::read_descriptor;

/// A descriptor, the network that is asked, a branch and an index; and the address and the text there.
type Row = (
    &'static str,
    Option<Network>,
    usize,
    u32,
    &'static str,
    &'static str,
);

const ROWS: [Row; 12] = [
    // `derive_bip173`
    (
        "wsh(pk(0279be667ef9dcbbac55a06295ce870b07029bfcdb2dce28d959f2815b16f81798))",
        None,
        0,
        0,
        "bc1qrp33g0q5c5txsp9arysrx4k6zdkfs4nce4xj0gdcccefvpysxf3qccfmv3",
        "pk(0279be667ef9dcbbac55a06295ce870b07029bfcdb2dce28d959f2815b16f81798)",
    ),
    // `derive_bip173_testnet`
    (
        "wsh(pk(0279be667ef9dcbbac55a06295ce870b07029bfcdb2dce28d959f2815b16f81798))",
        Some(Network::Test),
        0,
        0,
        "tb1qrp33g0q5c5txsp9arysrx4k6zdkfs4nce4xj0gdcccefvpysxf3q0sl5k7",
        "pk(0279be667ef9dcbbac55a06295ce870b07029bfcdb2dce28d959f2815b16f81798)",
    ),
    // `derive_bip32_vector_1`
    (
        "wpkh([3442193e/0h/1/2h/2]xpub6FHa3pjLCk84BayeJxFW2SP4XRrFd1JYnxeLeU8EqN3vDfZmbqBqaGJAyiLjTAwm6ZLRQUMv1ZACTj37sR62cfN7fe5JnJ7dh8zL4fiyLHV/*)",
        None,
        0,
        1_000_000_000,
        "bc1q66d2zq39tlkhgduz0rrczfcpafjplhejmtgugz",
        "",
    ),
    // `derive_bip49`
    (
        "sh(wpkh([d34db33f/49h/1h/0h/0/0]03a1af804ac108a8a51782198c2d034b28bf90c8803f5a53f76276fa69a4eae77f))",
        Some(Network::Test),
        0,
        0,
        "2Mww8dCYPUpKHofjgcXcBCEGmniw9CoaiD2",
        "",
    ),
    // `derive_bip67`
    (
        "wsh(sortedmulti(2,02ff12471208c14bd580709cb2358d98975247d8765f92bc25eab3b2763ed605f8,02fe6f0a5a297eb38c391581c4413e084773ea23954d93f7753db7dc0adc188b2f))",
        None,
        0,
        0,
        "bc1qknwt9mhqpd7hrjrvpqz57zjqk28xlp2h90te6v22en0m3uctnams3pq5ce",
        "multi(2,02fe6f0a5a297eb38c391581c4413e084773ea23954d93f7753db7dc0adc188b2f,02ff12471208c14bd580709cb2358d98975247d8765f92bc25eab3b2763ed605f8)",
    ),
    // `derive_bip84`
    (
        "wpkh([73c5da0a/84'/0'/0']xpub6CatWdiZiodmUeTDp8LT5or8nmbKNcuyvz7WyksVFkKB4RHwCD3XyuvPEbvqAQY3rAPshWcMLoP2fMFMKHPJ4ZeZXYVUhLv1VMrjPC7PW6V/<0;1>/*)",
        None,
        0,
        0,
        "bc1qcr8te4kr609gcawutmrza0j4xv80jy8z306fyu",
        "",
    ),
    // `derive_digits_of_both_cases`
    (
        "wsh(and_v(v:pk([ABCDEF01]0279BE667EF9DCBBAC55A06295CE870B07029BFCDB2DCE28D959F2815B16F81798),sha256(AbAbAbAbAbAbAbAbAbAbAbAbAbAbAbAbAbAbAbAbAbAbAbAbAbAbAbAbAbAbAbAb)))",
        None,
        0,
        0,
        "bc1qmysjkjr5k9c772zsv5dqf6qh84rdhked6snmpe5nt4hpneca90yqnlx5m9",
        "and_v(v:pk(0279be667ef9dcbbac55a06295ce870b07029bfcdb2dce28d959f2815b16f81798),sha256(AbAbAbAbAbAbAbAbAbAbAbAbAbAbAbAbAbAbAbAbAbAbAbAbAbAbAbAbAbAbAbAb))",
    ),
    // `derive_key_or_later_key`
    (
        "wsh(or_d(pk([73c5da0a/84h/0h/0h]xpub6CatWdiZiodmUeTDp8LT5or8nmbKNcuyvz7WyksVFkKB4RHwCD3XyuvPEbvqAQY3rAPshWcMLoP2fMFMKHPJ4ZeZXYVUhLv1VMrjPC7PW6V/<0;1>/*),and_v(v:pkh(xpub661MyMwAqRbcFW31YEwpkMuc5THy2PSt5bDMsktWQcFF8syAmRUapSCGu8ED9W6oDMSgv6Zz8idoc4a6mr8BDzTJY47LJhkJ8UB7WEGuduB/7/<0;1>/*),older(144))))",
        None,
        0,
        2_147_483_647,
        "bc1qt4xe0keg9wkvurvsthhm0cc8l29pemjshr80ye924yjgzkj9jpzqyshq4j",
        "or_d(pk(03efcddc505b827deffd2cc7d1e142b5c3e6d25ad39f73e8f39cd9ec35bc0328e9),and_v(v:pkh(02176553fbb42449f31a62376807b52d2a84c4e61f90db7eb1ad16abc9d0171314),older(144)))",
    ),
    // `derive_regtest`
    (
        "wsh(pk(0279be667ef9dcbbac55a06295ce870b07029bfcdb2dce28d959f2815b16f81798))",
        Some(Network::Regtest),
        0,
        0,
        "bcrt1qrp33g0q5c5txsp9arysrx4k6zdkfs4nce4xj0gdcccefvpysxf3qzf4jry",
        "pk(0279be667ef9dcbbac55a06295ce870b07029bfcdb2dce28d959f2815b16f81798)",
    ),
    // `derive_sh_wsh_regtest`
    (
        "sh(wsh(multi(1,tpubD8eQVK4Kdxg3gHrF62jGP7dKVCoYiEB8dFSpuTawkL5YxTus5j5pf83vaKnii4bc6v2NVEy81P2gYrJczYne3QNNwMTS53p5uzDyHvnw2jm/0/*,[00000001]tpubD6NzVbkrYhZ4XJDrzRvuxHEyQaPd1mwwdDofEJwekX18tAdsqeKfxss79AJzg1431FybXg5rfpTrJF4iAhyR7RubberdzEQXiRmXGADH2eA/1/*)))",
        Some(Network::Regtest),
        0,
        3,
        "2NCdJ5yPXdtviXCrtCqthKc3MuR1o8wDPH5",
        "multi(1,035245c01e98d988d45acc1f68c0fbaea261fadc1e3156894394e5b0e28dfb8bb1,03df65ad636121dc7aacb945c5643c6d60ea9dc5583b98ac3dcc36de6db01f57ea)",
    ),
    // `derive_sorted_change`
    (
        "wsh(sortedmulti(2,[73c5da0a/84'/0'/0']xpub6CatWdiZiodmUeTDp8LT5or8nmbKNcuyvz7WyksVFkKB4RHwCD3XyuvPEbvqAQY3rAPshWcMLoP2fMFMKHPJ4ZeZXYVUhLv1VMrjPC7PW6V/<0;1>/*,[3442193e/0h]xpub68Gmy5EdvgibQVfPdqkBBCHxA5htiqg55crXYuXoQRKfDBFA1WEjWgP6LHhwBZeNK1VTsfTFUHCdrfp1bgwQ9xv5ski8PX9rL2dZXvgGDnw/<0;1>/*,xpub661MyMwAqRbcFW31YEwpkMuc5THy2PSt5bDMsktWQcFF8syAmRUapSCGu8ED9W6oDMSgv6Zz8idoc4a6mr8BDzTJY47LJhkJ8UB7WEGuduB/<0;1>/*))#aqqv8jmc",
        None,
        1,
        5,
        "bc1q0cfm36t733txugg3ducqv8cglt6nfmgyc3xk2e4lmyuw6p5vtypq5wqsg3",
        "multi(2,0253b0373d546c55d7b8cc336384667fa7f95fcc72ceab2d469ea683ea8ac40719,0309e49da9dbf5174885570c87107b1b2e2552068068350ab832fcc8f64626d6c1,03f46e21553300aab54463833ddf017adc5068674facac6ac1672e4543a48a6a96)",
    ),
    // `derive_three_branches`
    (
        "wsh(and_v(v:pk(xpub661MyMwAqRbcFtXgS5sYJABqqG9YLmC4Q1Rdap9gSE8NqtwybGhePY2gZ29ESFjqJoCu1Rupje8YtGqsefD265TMg7usUDFdp6W1EGMcet8/<5;6;2147483647>/1/*),pk(xpub661MyMwAqRbcFW31YEwpkMuc5THy2PSt5bDMsktWQcFF8syAmRUapSCGu8ED9W6oDMSgv6Zz8idoc4a6mr8BDzTJY47LJhkJ8UB7WEGuduB/3)))",
        None,
        2,
        0,
        "bc1q5uklh56yszszdt3ehwmueftzjjw0mta8mq9s5qseaxf0fw6s59uq0prpn5",
        "and_v(v:pk(02799e618706fab8cfb5dd5c059ed8c540d199218a668a8fe2093e9eb148166088),pk(028380360921e83946beadccbf7fbf3291419435f29f089e5e8abcfea0e4d13182))",
    ),
];

#[test]
fn rows_are_given(rt: HostRuntime) {
    for (descriptor, network, branch, index, address, text) in ROWS {
        let Ok(read) = read_descriptor(rt.alloc(), descriptor) else {
            panic!(rt; "{descriptor}");
        };
        let Ok(given) = give(rt.alloc(), descriptor, &read, network, branch, index) else {
            panic!(rt; "{descriptor}");
        };
        assert!(rt;
            given.address.as_slice() == address.as_bytes(),
            "{descriptor}"
        );
        assert!(rt; given.text.as_slice() == text.as_bytes(), "{descriptor}");
    }
}
