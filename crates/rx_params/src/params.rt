//! A parameter set, and the four that have names.
ghost use Rattle.std.specs.Prelude.{◌≡◌, ◌^◌, ◌≤◌, IfSome};
ghost use Rattle.rx_params.specs.Derived.{large_dim};
ghost use Rattle.rx_params.specs.Sets.{named_of};
ghost use Rattle.rx_params.specs.Acceptance.{Accepts, FieldsInRange};

/// A parameter set, by its ten fields. Any values can be held; `check` says which are accepted.
#[derive(Clone, Copy, Debug, PartialEq, Eq)]
pub struct Params {
    /// Message bits of a block, and as many carry bits: 2 or 3.
    pub message_bits: u32,
    /// Mask polynomials of a ciphertext over polynomials: 1 to 4.
    pub glwe_dim: u32,
    /// Coefficients of a polynomial: a power of two from 64 to 4096.
    pub poly_size: u32,
    /// Bits of the small key: 1 to 1024.
    pub lwe_dim: u32,
    /// Bits of a digit in the bootstrap: 1 to 24.
    pub pbs_base_log: u32,
    /// Digits of a word in the bootstrap: 1 to 30, and at most 60 bits in all.
    pub pbs_level: u32,
    /// Bits of a digit in the key switch: 1 to 24.
    pub ks_base_log: u32,
    /// Digits of a word in the key switch: 1 to 30, and at most 60 bits in all.
    pub ks_level: u32,
    /// Noise under the large key lies within two to this: 0 to 40.
    pub glwe_bound: u32,
    /// Noise under the small key lies within two to this: 0 to 40.
    pub lwe_bound: u32,
}

impl Params {
    /// The dimension of blocks, which is how many bits the large key has: at most 16384 for a set whose
    /// fields are within their limits.
    #[tactic(auto, unfolding(crate::specs::Derived::large_dim))]
    pub fn large_dim(&self) -> u32
        requires { FieldsInRange self.now }
        ensures value { result ≡ large_dim self.now }
        ensures high { result ≤ 2 ^ 14 }
    {
        self.glwe_dim * self.poly_size
    }
}

const RX_2_2: Params = Params {
    message_bits: 2,
    glwe_dim: 1,
    poly_size: 512,
    lwe_dim: 24,
    pbs_base_log: 12,
    pbs_level: 2,
    ks_base_log: 4,
    ks_level: 6,
    glwe_bound: 17,
    lwe_bound: 20,
};

const RX_TEST: Params = Params {
    message_bits: 2,
    glwe_dim: 1,
    poly_size: 256,
    lwe_dim: 8,
    pbs_base_log: 12,
    pbs_level: 2,
    ks_base_log: 4,
    ks_level: 6,
    glwe_bound: 17,
    lwe_bound: 20,
};

const RX_3_3: Params = Params {
    message_bits: 3,
    glwe_dim: 1,
    poly_size: 2048,
    lwe_dim: 24,
    pbs_base_log: 12,
    pbs_level: 3,
    ks_base_log: 5,
    ks_level: 6,
    glwe_bound: 17,
    lwe_bound: 20,
};

const RX_K2: Params = Params {
    message_bits: 2,
    glwe_dim: 2,
    poly_size: 256,
    lwe_dim: 8,
    pbs_base_log: 12,
    pbs_level: 2,
    ks_base_log: 4,
    ks_level: 6,
    glwe_bound: 17,
    lwe_bound: 20,
};

/// The set of one of the names `rx-2-2`, `rx-test`, `rx-3-3` and `rx-k2`, which is accepted (docs/NOISE.md, The
/// budget of each set), and None for any other name.
pub fn named(name: &str) -> Option<Params>
    ensures value { result ≡ named_of name.now }
    ensures accepted { IfSome result Accepts }
{
    if name == "rx-2-2" {
        Some(RX_2_2)
    } else if name == "rx-test" {
        Some(RX_TEST)
    } else if name == "rx-3-3" {
        Some(RX_3_3)
    } else if name == "rx-k2" {
        Some(RX_K2)
    } else {
        None
    }
}
