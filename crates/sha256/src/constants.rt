// The constants of SHA-256: FIPS 180-4, 4.2.2 and 5.3.3. They are handed out by value, so that who uses them reads them from
// one place.
ghost use Rattle.std.specs.Prelude.{◌≡◌, ◌*◌, ◌<◌, take, drop};
ghost use Rattle.sha256.specs.Constants as C;

const K_0: [u32; 8] = [
    0x428a_2f98,
    0x7137_4491,
    0xb5c0_fbcf,
    0xe9b5_dba5,
    0x3956_c25b,
    0x59f1_11f1,
    0x923f_82a4,
    0xab1c_5ed5,
];

const K_8: [u32; 8] = [
    0xd807_aa98,
    0x1283_5b01,
    0x2431_85be,
    0x550c_7dc3,
    0x72be_5d74,
    0x80de_b1fe,
    0x9bdc_06a7,
    0xc19b_f174,
];

const K_16: [u32; 8] = [
    0xe49b_69c1,
    0xefbe_4786,
    0x0fc1_9dc6,
    0x240c_a1cc,
    0x2de9_2c6f,
    0x4a74_84aa,
    0x5cb0_a9dc,
    0x76f9_88da,
];

const K_24: [u32; 8] = [
    0x983e_5152,
    0xa831_c66d,
    0xb003_27c8,
    0xbf59_7fc7,
    0xc6e0_0bf3,
    0xd5a7_9147,
    0x06ca_6351,
    0x1429_2967,
];

const K_32: [u32; 8] = [
    0x27b7_0a85,
    0x2e1b_2138,
    0x4d2c_6dfc,
    0x5338_0d13,
    0x650a_7354,
    0x766a_0abb,
    0x81c2_c92e,
    0x9272_2c85,
];

const K_40: [u32; 8] = [
    0xa2bf_e8a1,
    0xa81a_664b,
    0xc24b_8b70,
    0xc76c_51a3,
    0xd192_e819,
    0xd699_0624,
    0xf40e_3585,
    0x106a_a070,
];

const K_48: [u32; 8] = [
    0x19a4_c116,
    0x1e37_6c08,
    0x2748_774c,
    0x34b0_bcb5,
    0x391c_0cb3,
    0x4ed8_aa4a,
    0x5b9c_ca4f,
    0x682e_6ff3,
];

const K_56: [u32; 8] = [
    0x748f_82ee,
    0x78a5_636f,
    0x84c8_7814,
    0x8cc7_0208,
    0x90be_fffa,
    0xa450_6ceb,
    0xbef9_a3f7,
    0xc671_78f2,
];

const H0: [u32; 8] = [
    0x6a09_e667,
    0xbb67_ae85,
    0x3c6e_f372,
    0xa54f_f53a,
    0x510e_527f,
    0x9b05_688c,
    0x1f83_d9ab,
    0x5be0_cd19,
];

// K_t to K_(t + 7) of the rounds, t eight times what is asked for. An array that is indexed stands on the stack, so only the next
// eight rounds' are handed out.
pub(crate) fn eight_constants(eighth: usize) -> [u32; 8]
    requires { eighth < 8 }
    ensures { result ≡ take 8 (drop (8 * eighth) C.K) }
{
    match eighth {
        0 => K_0,
        1 => K_8,
        2 => K_16,
        3 => K_24,
        4 => K_32,
        5 => K_40,
        6 => K_48,
        _ => K_56,
    }
}

// H_0 to H_7 before the first block.
pub(crate) fn initial_hash() -> [u32; 8]
    ensures { result ≡ C.H0 }
{
    H0
}
