// Much input and much output of SHAKE256, for bench/shake.py: `in` hashes 64 MiB, `out` squeezes 64 MiB, and no argument does 1 MiB of each.
#![tactic(auto)]

use anyhow::anyhow;
use shake::{Absorbing, Squeezing};
use std::env;

const BLOCK_BYTES: usize = 65_536;

const MANY_BLOCKS: u32 = 1024;

const FEW_BLOCKS: u32 = 16;

// The first 32 bytes of SHAKE256 of this many blocks of hexadecimal a5.
fn hash_blocks(count: u32) -> [u8; 32] {
    let block = [0xa5u8; BLOCK_BYTES];
    let mut message = Absorbing::new();
    for _ in 0..count {
        message.absorb(&block);
    }
    let mut digest = [0u8; 32];
    message.finish().squeeze(&mut digest);
    digest
}

// Fills the block this many times.
fn refill(stream: &mut Squeezing, block: &mut [u8], count: u32) {
    for _ in 0..count {
        stream.squeeze(block);
    }
}

// The 32 bytes that follow this many blocks of SHAKE256 of nothing.
fn squeeze_blocks(count: u32) -> [u8; 32] {
    let mut block = [0u8; BLOCK_BYTES];
    let mut stream = Absorbing::new().finish();
    refill(&mut stream, &mut block, count);
    let mut next = [0u8; 32];
    stream.squeeze(&mut next);
    next
}

fn show(rt: &impl Print, name: &str, bytes: &[u8]) -> anyhow::Result<()> {
    print!(rt; "{name} ")?;
    for byte in bytes {
        print!(rt; "{byte:02x}")?;
    }
    println!(rt)?;
    Ok(())
}

fn run(rt: &HostRuntime) -> anyhow::Result<()> {
    match env::args(rt)?.nth(1).as_deref() {
        None => {
            show(rt, "in", &hash_blocks(FEW_BLOCKS))?;
            show(rt, "out", &squeeze_blocks(FEW_BLOCKS))
        }
        Some("in") => show(rt, "in", &hash_blocks(MANY_BLOCKS)),
        Some("out") => show(rt, "out", &squeeze_blocks(MANY_BLOCKS)),
        Some(_) => Err(anyhow!("the argument is neither in nor out")),
    }
}

fn main(rt: HostRuntime) -> anyhow::Result<()> {
    run(&rt)
}
