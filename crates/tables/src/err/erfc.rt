// pxfm's src/err/erfc.rs: its tables, as the bits of f64 numbers.
ghost use Rattle.std.specs.Prelude.{◌+◌, ◌<◌};
ghost use Rattle.std.proofs.Common.{lit<};
ghost use Rattle.tables.specs.Erfc.{fast_number, accurate_number, exp_number};

use crate::numbers::{Numbers, Row, number_at, number_in, turns_in};

// p0 and p1 stand for one coefficient; `turns` of the numbers from p2 on are added to pairs in a loop.
pub static ASYMPTOTIC_POLY: [Row<13>; 6] = [
    Row {
        p: [
            0x3fe20dd750429b6d,
            0x3c61a1feb75a48a8,
            0xbfd20dd750429b6c,
            0x3fdb14c2f863e403,
            0xbff0ecf9db3af35d,
            0x400d9eb53ca6eeed,
            0xc030a945830d95c8,
            0x4056e8a963e2f1f5,
            0xc0829b7ccc8f396f,
            0x40b15e716e83c27e,
            0xc0e1cfdcfbcaf22a,
            0x4111986cc7a7e8fe,
            0xc1371f7540590a91,
        ],
        turns: 7,
    },
    Row {
        p: [
            0x3fe20dd750429ae7,
            0x3c863da89e801fd4,
            0xbfd20dd750400795,
            0x3fdb14c2f57c490c,
            0xbff0ecf95c8c9014,
            0x400d9e981f2321ef,
            0xc030a81482de1506,
            0x4056d662420a604b,
            0xc08233c96fff7772,
            0x40af5d62018d3e37,
            0xc0d9ae55e9554450,
            0x410052901e10d139,
            0xc1166465df1385f0,
        ],
        turns: 7,
    },
    Row {
        p: [
            0x3fe20dd75041e3fc,
            0xbc7c9b491c4920fc,
            0xbfd20dd74e5f1526,
            0x3fdb14c1d35a40e0,
            0xbff0ecdecd30e86b,
            0x400d9b4e7f725263,
            0xc030958b5ca8fb39,
            0x40563e3179bf609c,
            0xc0806bbd1cd2d0fd,
            0x40a7b66eb6d1d2f2,
            0xc0cce5a4b1afab75,
            0x40e8b5c6ae6f773c,
            0xc0f5475860326f86,
        ],
        turns: 7,
    },
    Row {
        p: [
            0x3fe20dd75025cfe9,
            0x3c55a92eef32fb20,
            0xbfd20dd71eb9d4e7,
            0x3fdb14af4c25db28,
            0xbff0ebc78a22b3d8,
            0x400d85287a0b3399,
            0xc03045f751e5ca1d,
            0x4054a0d87ddea589,
            0xc07ac6a0981d1eee,
            0x409f44822f567956,
            0xc0bcba372de71349,
            0x40d1a4a19f550ca4,
            0xc0d52a580455ed79,
        ],
        turns: 7,
    },
    Row {
        p: [
            0x3fe20dd74eb31d84,
            0xbc439c4054b7c090,
            0xbfd20dd561af98c4,
            0x3fdb1435165d9df1,
            0xbff0e6b60308e940,
            0x400d3ce30c140882,
            0xc02f2083e404c299,
            0x40520f113d89b42a,
            0xc0741433ebd89f19,
            0x4092f35b6a3154f6,
            0xc0ab020a4313cf3b,
            0x40b90f07e92da7ee,
            0xc0b6565e1d7665c3,
        ],
        turns: 7,
    },
    Row {
        p: [
            0x3fe20dd744b3517b,
            0xbc6f77ab25e01ab4,
            0xbfd20dcc62ec4024,
            0x3fdb125bfa4f66c1,
            0xbff0d80e65381970,
            0x400ca11fbcfa65b2,
            0xc02cd9eaffb88315,
            0x404e010db42e0da7,
            0xc06c5c85250ef6a3,
            0x4085e118d9c1eeaf,
            0xc098d74be13d3d30,
            0x40a211b1b2b5ac83,
            0xc09900be759fc663,
        ],
        turns: 7,
    },
];

// Six coefficients of two numbers each, then single ones, then zeros, as in the Rust; `turns` of the single ones are added to pairs in a loop.
pub static ASYMPTOTIC_POLY_ACCURATE: [Row<30>; 10] = [
    Row {
        p: [
            0x3fe20dd750429b6d,
            0x3c61ae3a912b08f0,
            0xbfd20dd750429b6d,
            0xbc51ae34c0606d68,
            0x3fdb14c2f863e924,
            0xbc796c0f4c848fc8,
            0xbff0ecf9db3e71b6,
            0x3c645d756bd288b0,
            0x400d9eb53fad4672,
            0xbcac61629de9adf2,
            0xc030a945f3d147ea,
            0x3cb8fec5ad7ece20,
            0x4056e8c02f27ca6d,
            0xc0829d1c21c363e0,
            0x40b17349b70be627,
            0xc0e28a6bb4686182,
            0x411602d1662523ca,
            0xc14ccae7625c4111,
            0x4184237d064f6e0d,
            0xc1bb1e5466ca3a2f,
            0x41e90ae06a0f6cc1,
            0x0000000000000000,
            0x0000000000000000,
            0x0000000000000000,
            0x0000000000000000,
            0x0000000000000000,
            0x0000000000000000,
            0x0000000000000000,
            0x0000000000000000,
            0x0000000000000000,
        ],
        turns: 8,
    },
    Row {
        p: [
            0x3fe20dd750429b6d,
            0x3c61adaa62435c10,
            0xbfd20dd750429b6d,
            0xbc441516126827c8,
            0x3fdb14c2f863e90b,
            0x3c7a535780ba5ed4,
            0xbff0ecf9db3e65d6,
            0xbc9089edde27ad07,
            0x400d9eb53fa52f20,
            0xbcabc9737e9464ac,
            0xc030a945f2cd7621,
            0xbcc589f28b700332,
            0x4056e8bffd7e194e,
            0xc0829d18716876e2,
            0x40b17312abe18250,
            0xc0e287e73592805c,
            0x4115ebf7394a39c1,
            0xc14c2f14d46d0cf9,
            0x4182af3d256f955e,
            0xc1b7041659ebd7aa,
            0x41e6039c232e2f71,
            0xc2070ca15c5a07cb,
            0x0000000000000000,
            0x0000000000000000,
            0x0000000000000000,
            0x0000000000000000,
            0x0000000000000000,
            0x0000000000000000,
            0x0000000000000000,
            0x0000000000000000,
        ],
        turns: 9,
    },
    Row {
        p: [
            0x3fe20dd750429b6d,
            0x3c5d3c35b5d37410,
            0xbfd20dd750429b56,
            0xbc7c028415f6f81b,
            0x3fdb14c2f863c1cf,
            0x3c51bb0de6470dbc,
            0xbff0ecf9db33c363,
            0x3c80f8068459eb16,
            0x400d9eb53b9ce57b,
            0x3ca20cce33e7d84a,
            0xc030a945aa2ec4fa,
            0xbcdf6e0fcd7c6030,
            0x4056e8b824d2bfaa,
            0xc0829cc372a6d0b0,
            0x40b1703a99ddd429,
            0xc0e2749f9a267cc6,
            0x4115856a17271849,
            0xc14a8bcb4ba9753f,
            0x418035dcce882940,
            0xc1b1e5d8c5e6e043,
            0x41dfe3b4f365386e,
            0xc20398fdef2b98fe,
            0x42184234d4f4ea12,
            0x0000000000000000,
            0x0000000000000000,
            0x0000000000000000,
            0x0000000000000000,
            0x0000000000000000,
            0x0000000000000000,
            0x0000000000000000,
        ],
        turns: 10,
    },
    Row {
        p: [
            0x3fe20dd750429b6a,
            0x3c8ae622b765e9fd,
            0xbfd20dd750428f0e,
            0x3c703c6c67d69513,
            0x3fdb14c2f8563e8e,
            0x3c6766a6bd7aa89c,
            0xbff0ecf9d8dedd48,
            0x3c90af52e90336e3,
            0x400d9eb4aad086fe,
            0x3ca640d371d54a19,
            0xc030a93f1d01cfe0,
            0xbcc68dbd8d9c522c,
            0x4056e842e9fd5898,
            0xc08299886ef1fb80,
            0x40b15e0f0162c9a0,
            0xc0e222dbc6b04cd8,
            0x411460268db1ebdf,
            0xc1474f53ce065fb3,
            0x417961ca8553f870,
            0xc1a8788395d13798,
            0x41d35e37b25d0e81,
            0xc1f707b7457c8f5e,
            0x4211ff852df1c023,
            0xc21b75d0ec56e2cd,
            0x0000000000000000,
            0x0000000000000000,
            0x0000000000000000,
            0x0000000000000000,
            0x0000000000000000,
            0x0000000000000000,
        ],
        turns: 11,
    },
    Row {
        p: [
            0x3fe20dd750429a8f,
            0xbc766d8dda59bcea,
            0xbfd20dd7503fdbab,
            0x3c6707bdffc2b3fe,
            0x3fdb14c2f6526025,
            0xbc27fa4bb9541140,
            0xbff0ecf99c417d45,
            0xbc9748645ef7af94,
            0x400d9eaa9c712a7d,
            0x3ca79e478994ebb4,
            0xc030a8ef11fbf141,
            0x3cbb5c72d69f8954,
            0x4056e4653e0455b1,
            0xc08286909448e6cf,
            0x40b113424ce76821,
            0xc0e1346d859e76de,
            0x4111f9f6cf2293bf,
            0xc14258e6e3b337db,
            0x41714029ecd465fb,
            0xc19c530df5337a6f,
            0x41c34bc4bbccd336,
            0xc1e4a37c52641688,
            0x420019707cec2974,
            0xc21031fe736ea169,
            0x420f6b3003de3ddf,
            0x0000000000000000,
            0x0000000000000000,
            0x0000000000000000,
            0x0000000000000000,
            0x0000000000000000,
        ],
        turns: 12,
    },
    Row {
        p: [
            0x3fe20dd75042756b,
            0x3c84ad9178b56910,
            0xbfd20dd74feda9e8,
            0xbc78141c70bbc8d6,
            0x3fdb14c2cb128467,
            0xbc709aebaa106821,
            0xbff0ecf603921a0b,
            0x3c97d3cb5bceaf0b,
            0x400d9e3e1751ca59,
            0x3c76622ae5642670,
            0xc030a686af57f547,
            0x3cc083b320aff6b6,
            0x4056cf0b6c027326,
            0xc0823afcb69443d3,
            0x40b03ab450d9f1b9,
            0xc0de74cdb76bcab4,
            0x410c671b60e607f1,
            0xc138f1376d324ce4,
            0x4163b64276234676,
            0xc18aff0ce13c5a8e,
            0x41aef20247251e87,
            0xc1cc9f5662f721f6,
            0x41e4687858e185e1,
            0xc1f4fa507be073c2,
            0x41fb99ac35ee4acc,
            0xc1f16cb585ee3fa9,
            0x0000000000000000,
            0x0000000000000000,
            0x0000000000000000,
            0x0000000000000000,
        ],
        turns: 13,
    },
    Row {
        p: [
            0x3fe20dd7503e730d,
            0x3c84e524a098a467,
            0xbfd20dd7498fa6b2,
            0x3c260a4e27751c80,
            0x3fdb14c061bd2a0c,
            0x3c695a8f847d2fc2,
            0xbff0ecd0f11b8c7d,
            0xbc94126deea76061,
            0x400d9b1344463548,
            0x3cafe09a4eca9b0e,
            0xc030996ea52a87ed,
            0xbca924f920db26c0,
            0x40567a2264b556b0,
            0xc0815dfc2c86b6b5,
            0x40accc291b62efe4,
            0xc0d81375a78e746a,
            0x41033a6f15546329,
            0xc12c1e9dc1216010,
            0x4152397ea3d43fda,
            0xc174661e5b2ea512,
            0x4193412367ca5d45,
            0xc1ade56b9d7f37c4,
            0x41c2851d9722146d,
            0xc1d19027baf0c3fe,
            0x41d7e7b8b6ab58ac,
            0xc1d4c446d56aaf22,
            0x41c1492190400505,
            0x0000000000000000,
            0x0000000000000000,
            0x0000000000000000,
        ],
        turns: 14,
    },
    Row {
        p: [
            0x3fe20dd74ff10852,
            0x3c8a32f26deff875,
            0xbfd20dd6f06c491c,
            0x3c770c16e1793358,
            0x3fdb14a7d5e7fd4a,
            0x3c7479998b54db5b,
            0xbff0ebbdb3889c5f,
            0xbc759b853e11369c,
            0x400d89dd249d7ef8,
            0xbc84b5edf0c8c314,
            0xc0306526fb386114,
            0xbc840d04eed7c7e0,
            0x40557ff657e429ce,
            0xc07ef63e90d38630,
            0x40a6d4f34c4ea3da,
            0xc0d04542b9e36a54,
            0x40f577bf19097738,
            0xc119702fe47c736d,
            0x413a7ae12b54fdc6,
            0xc157ca3f0f7c4fa9,
            0x417225d983963cbf,
            0xc1871a6eac612f9e,
            0x4198086324225e1e,
            0xc1a3de68670a7716,
            0x41a91674de4dcbe9,
            0xc1a6b44cc15b76c2,
            0x419a36dae0f30d80,
            0xc17cffc1747ea3dc,
            0x0000000000000000,
            0x0000000000000000,
        ],
        turns: 15,
    },
    Row {
        p: [
            0x3fe20dd74ba8f300,
            0xbc59dd256871d210,
            0xbfd20dd3593675bc,
            0x3c7ec0e7ffa91ad9,
            0x3fdb13eef86a077a,
            0xbc74fb5d78d411b8,
            0xbff0e5cf52a11f3a,
            0xbc851f36c779dc8c,
            0x400d4417a08b39d5,
            0x3c91be9fb5956638,
            0xc02f91b9f6ce80c3,
            0xbccc9c99dd42829c,
            0x405356439f45bb43,
            0xc078c0ca12819b48,
            0x409efcad2ecd6671,
            0xc0c21b0af6fc1039,
            0x40e327d215ee30c9,
            0xc101fabda96167b0,
            0x411d82e4373b315d,
            0xc134ed9e2ff591e9,
            0x41495c85dcd8eab5,
            0xc159f016f0a3d62a,
            0x41660e89d918b96f,
            0xc16e97be202cba64,
            0x4170d8a081619793,
            0xc16c5422b4fcfc65,
            0x4161131a9dc6aed1,
            0xc14a457d9dced257,
            0x4123605e980e8b86,
            0x0000000000000000,
        ],
        turns: 16,
    },
    Row {
        p: [
            0x3fe20dd7319d4d25,
            0x3c82b02992c3b7ab,
            0xbfd20dc29c13ab1b,
            0xbc7d78d79b4ad767,
            0x3fdb115a57b5ab13,
            0xbc6aa8c45be0aa2e,
            0xbff0d58ec437efd7,
            0xbc5994f00a15e850,
            0x400cb1742e229f23,
            0xbca8000471d54399,
            0xc02d99a5edf7b946,
            0xbcbaf76ed7e35cde,
            0x4050a8b71058eb28,
            0xc072d88289da5bfc,
            0x40943ddf24168edb,
            0xc0b3e9dfc38b6d1a,
            0x40d18d4df97ab3df,
            0xc0eb550fc62dcab5,
            0x41029cb71f116ed1,
            0xc115fc9cc4e854e3,
            0x41265915fd0567b1,
            0xc1335eb5fca0e46d,
            0x413c5261ecc0d789,
            0xc14138932dc4eafc,
            0x414117d4eb18facd,
            0xc13af96163e35eca,
            0x4130454a3a63c766,
            0xc11c2ebc1d39b44a,
            0x40ff3327698e0e6b,
            0xc0d094febc3dff35,
        ],
        turns: 17,
    },
];

// The exponential's polynomial in exp_accurate: eight coefficients of two numbers each, then single ones.
pub static E2: [u64; 28] = [
    0x3ff0000000000000,
    0xb960000000000000,
    0x3ff0000000000000,
    0xb9be200000000000,
    0x3fe0000000000000,
    0x3a03c00000000000,
    0x3fc5555555555555,
    0x3c655555555c78d9,
    0x3fa5555555555555,
    0x3c455555545616e2,
    0x3f81111111111111,
    0x3c011110121fc314,
    0x3f56c16c16c16c17,
    0xbbef49e06ee3a56e,
    0x3f2a01a01a01a01a,
    0x3b6b053e1eeab9c0,
    0x3efa01a01a01a01a,
    0x3ec71de3a556c733,
    0x3e927e4fb7789f66,
    0x3e5ae64567f54abe,
    0x3e21eed8eff8958b,
    0x3de6124613837216,
    0x3da93974aaf26a57,
    0x3d6ae7f4fd6d0bd9,
    0x3d2ae7e982620b25,
    0x3ce94e4ca59460d8,
    0x3ca69a2a4b7ef36d,
    0x3c6abfe1602308c9,
];

// The numbers of a row of the fast polynomial. Two row types over one trait: no parameter of a type can name a table.
#[derive(Clone, Copy)]
pub struct AsymptoticNumbers {
    pub row: usize,
    ghost within: { row < 6 },
}

impl Numbers for AsymptoticNumbers {
    ghost count = { λ _. 13 };

    ghost numbers = { λ r. fast_number r.row };

    ghost turns = { λ _. 7 };

    ghost fits = { λ _. lit< tt };

    fn number(&self, n: usize) -> f64 {
        number_in(&ASYMPTOTIC_POLY, self.row, n)
    }

    fn turns(&self) -> usize {
        turns_in(&ASYMPTOTIC_POLY, self.row)
    }
}

// The numbers of a row of the accurate polynomial.
#[derive(Clone, Copy)]
pub struct AccurateNumbers {
    pub row: usize,
    ghost within: { row < 10 },
}

impl Numbers for AccurateNumbers {
    ghost count = { λ _. 30 };

    ghost numbers = { λ r. accurate_number r.row };

    ghost turns = { λ r. r.row + 8 };

    ghost fits = { λ _. lit< tt };

    fn number(&self, n: usize) -> f64 {
        number_in(&ASYMPTOTIC_POLY_ACCURATE, self.row, n)
    }

    fn turns(&self) -> usize {
        turns_in(&ASYMPTOTIC_POLY_ACCURATE, self.row)
    }
}

// The numbers of the accurate exponential's polynomial.
#[derive(Clone, Copy)]
pub struct ExpNumbers;

impl Numbers for ExpNumbers {
    ghost count = { λ _. 28 };

    ghost numbers = { λ _. exp_number };

    ghost turns = { λ _. 7 };

    ghost fits = { λ _. lit< tt };

    fn number(&self, n: usize) -> f64 {
        number_at(&E2, n)
    }

    fn turns(&self) -> usize {
        7
    }
}
