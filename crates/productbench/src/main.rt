// Times the product: n = 1018 coefficients by a secret of 254 positions, 20,000 times. bench/product.c does the same in C.
#![tactic(auto)]

ghost use Rattle.std.specs.Prelude.{◌≡◌, length};
ghost use Rattle.ring.specs.Cyclic.{Within};

use ring::{Coefficient, multiply_operands};
use std::io;

const N: usize = 1018;

// A product has one coefficient more.
const LONG: usize = 1019;

const H: usize = 254;

const ROUNDS: usize = 20_000;

fn next(state: u32) -> u32 {
    state.wrapping_mul(1_664_525).wrapping_add(1_013_904_223)
}

fn fill_poly(poly: &mut [Coefficient; N], seed: u32) -> u32 {
    let mut state = seed;
    for x in poly.iter_mut() {
        state = next(state);
        *x = Coefficient((state >> 16) as u16);
    }
    state
}

fn fill_secret(secret: &mut [u16; H], seed: u32)
    ensures { Within 1018 secret.new }
{
    let mut state = seed;
    for p in secret.iter_mut() {
        state = next(state);
        *p = ((state >> 16) % N as u32) as u16;
    }
}

// Each product changes one coefficient of the next.
fn products(poly: &mut [Coefficient; N], secret: &[u16; H], out: &mut [u16; LONG]) -> u32
    requires { Within 1018 secret.now }
{
    let mut sum = 0u32;
    for i in 0..ROUNDS {
        multiply_operands(poly, secret, out);
        let x = out[i % LONG];
        poly[i % N] = Coefficient(poly[i % N].0.wrapping_add(x));
        sum = sum.wrapping_mul(31).wrapping_add(x as u32);
    }
    sum
}

// The sum over all products of one polynomial and one secret, made from fixed numbers.
fn timed(poly: &mut [Coefficient; N], secret: &mut [u16; H], out: &mut [u16; LONG]) -> u32 {
    let state = fill_poly(poly, 1);
    fill_secret(secret, state);
    products(poly, secret, out)
}

fn main(rt: HostRuntime) -> io::Result<()> {
    let mut poly = [Coefficient(0); N];
    let mut secret = [0; H];
    let mut out = [0; LONG];
    let sum = timed(&mut poly, &mut secret, &mut out);
    println!(rt; "{sum}")
}
