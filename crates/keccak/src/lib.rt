// The permutation Keccak-p[1600, 24] of FIPS 202.
#![tactic(auto)]

ghost use Rattle.std.specs.Prelude.{◌≡◌, [], ◌∷◌};
ghost use Rattle.keccak.specs.Keccak.{theta, rho, pi, mixed, chi, iota, keccak_p};

const ROUNDS: usize = 24;

// How far rho rotates each lane, the one at column x and row y at place x + 5 y.
const OFFSETS: [u32; 25] = [
    0, 1, 62, 28, 27, 36, 44, 6, 55, 20, 3, 10, 43, 25, 39, 41, 45, 15, 21, 8, 18, 2, 61, 56, 14,
];

// What iota xors into the first lane in each round.
const ROUND_CONSTANTS: [u64; ROUNDS] = [
    0x0000000000000001,
    0x0000000000008082,
    0x800000000000808a,
    0x8000000080008000,
    0x000000000000808b,
    0x0000000080000001,
    0x8000000080008081,
    0x8000000000008009,
    0x000000000000008a,
    0x0000000000000088,
    0x0000000080008009,
    0x000000008000000a,
    0x000000008000808b,
    0x800000000000008b,
    0x8000000000008089,
    0x8000000000008003,
    0x8000000000008002,
    0x8000000000000080,
    0x000000000000800a,
    0x800000008000000a,
    0x8000000080008081,
    0x8000000000008080,
    0x0000000080000001,
    0x8000000080008008,
];

// Chi of one row. A product with an inverted factor is the inverse of a sum, so three inversions do in place of five.
#[tactic(auto, using(crate::proofs::Inverse::mixed_by_sum))]
fn chi_row(b0: u64, b1: u64, b2: u64, b3: u64, b4: u64) -> [u64; 5]
    ensures { result ≡ mixed b0 b1 b2 ∷ mixed b1 b2 b3 ∷ mixed b2 b3 b4 ∷ mixed b3 b4 b0 ∷ mixed b4 b0 b1 ∷ [] }
{
    let n1 = !b1;
    let n3 = !b3;
    let n4 = !b4;
    [
        b0 ^ (n1 & b2),
        n1 ^ (b2 | n3),
        b2 ^ (n3 & b4),
        b3 ^ (n4 & b0),
        n4 ^ (b0 | n1),
    ]
}

// One round: theta, then row by row the lanes rotated (rho) and moved (pi), chi, and the constant (iota).
// The lane at column x and row y is a(x + 5 y) before the round and e(x + 5 y) after it.
fn round(state: &mut [u64; 25], constant: u64)
    ensures { state.new ≡ iota constant (chi (pi (rho (theta state.old)))) }
{
    let [
        a0,
        a1,
        a2,
        a3,
        a4,
        a5,
        a6,
        a7,
        a8,
        a9,
        a10,
        a11,
        a12,
        a13,
        a14,
        a15,
        a16,
        a17,
        a18,
        a19,
        a20,
        a21,
        a22,
        a23,
        a24,
    ] = *state;
    let c0 = a0 ^ a5 ^ a10 ^ a15 ^ a20;
    let c1 = a1 ^ a6 ^ a11 ^ a16 ^ a21;
    let c2 = a2 ^ a7 ^ a12 ^ a17 ^ a22;
    let c3 = a3 ^ a8 ^ a13 ^ a18 ^ a23;
    let c4 = a4 ^ a9 ^ a14 ^ a19 ^ a24;
    let d0 = c4 ^ c1.rotate_left(1);
    let d1 = c0 ^ c2.rotate_left(1);
    let d2 = c1 ^ c3.rotate_left(1);
    let d3 = c2 ^ c4.rotate_left(1);
    let d4 = c3 ^ c0.rotate_left(1);
    let b0 = (a0 ^ d0).rotate_left(OFFSETS[0]);
    let b1 = (a6 ^ d1).rotate_left(OFFSETS[6]);
    let b2 = (a12 ^ d2).rotate_left(OFFSETS[12]);
    let b3 = (a18 ^ d3).rotate_left(OFFSETS[18]);
    let b4 = (a24 ^ d4).rotate_left(OFFSETS[24]);
    let [e0, e1, e2, e3, e4] = chi_row(b0, b1, b2, b3, b4);
    let b5 = (a3 ^ d3).rotate_left(OFFSETS[3]);
    let b6 = (a9 ^ d4).rotate_left(OFFSETS[9]);
    let b7 = (a10 ^ d0).rotate_left(OFFSETS[10]);
    let b8 = (a16 ^ d1).rotate_left(OFFSETS[16]);
    let b9 = (a22 ^ d2).rotate_left(OFFSETS[22]);
    let [e5, e6, e7, e8, e9] = chi_row(b5, b6, b7, b8, b9);
    let b10 = (a1 ^ d1).rotate_left(OFFSETS[1]);
    let b11 = (a7 ^ d2).rotate_left(OFFSETS[7]);
    let b12 = (a13 ^ d3).rotate_left(OFFSETS[13]);
    let b13 = (a19 ^ d4).rotate_left(OFFSETS[19]);
    let b14 = (a20 ^ d0).rotate_left(OFFSETS[20]);
    let [e10, e11, e12, e13, e14] = chi_row(b10, b11, b12, b13, b14);
    let b15 = (a4 ^ d4).rotate_left(OFFSETS[4]);
    let b16 = (a5 ^ d0).rotate_left(OFFSETS[5]);
    let b17 = (a11 ^ d1).rotate_left(OFFSETS[11]);
    let b18 = (a17 ^ d2).rotate_left(OFFSETS[17]);
    let b19 = (a23 ^ d3).rotate_left(OFFSETS[23]);
    let [e15, e16, e17, e18, e19] = chi_row(b15, b16, b17, b18, b19);
    let b20 = (a2 ^ d2).rotate_left(OFFSETS[2]);
    let b21 = (a8 ^ d3).rotate_left(OFFSETS[8]);
    let b22 = (a14 ^ d4).rotate_left(OFFSETS[14]);
    let b23 = (a15 ^ d0).rotate_left(OFFSETS[15]);
    let b24 = (a21 ^ d1).rotate_left(OFFSETS[21]);
    let [e20, e21, e22, e23, e24] = chi_row(b20, b21, b22, b23, b24);
    *state = [
        e0 ^ constant,
        e1,
        e2,
        e3,
        e4,
        e5,
        e6,
        e7,
        e8,
        e9,
        e10,
        e11,
        e12,
        e13,
        e14,
        e15,
        e16,
        e17,
        e18,
        e19,
        e20,
        e21,
        e22,
        e23,
        e24,
    ];
}

/// Keccak-p[1600, 24] of the lanes, the one at column x and row y at place x + 5 y.
pub fn permute(state: &mut [u64; 25])
    ensures { state.new ≡ keccak_p state.old }
{
    for constant in ROUND_CONSTANTS {
        round(state, constant);
    }
}
