// Runs the published vectors of SHAKE256 in data/shake256.txt: lines "message = HEX", each followed by a line "output = HEX".
#![tactic(auto)]

ghost use Rattle.std.specs.Prelude.{◌≡◌, length};
ghost use Rattle.shake.specs.Shake.{shake256};

use anyhow::anyhow;
use hex::decode_to_slice;
use shake::{Absorbing, hash};
use std::alloc::Global;
use std::fs;

// SHAKE256 of the message.
fn shake(message: &[u8], out: &mut [u8])
    ensures { out.new ≡ shake256 message.now (length out.old) }
{
    let mut sponge = Absorbing::new();
    sponge.absorb(message);
    sponge.finish().squeeze(out);
}

// Whether SHAKE256 of the message begins with these bytes, the message taken whole, and as a label and two pieces.
fn agrees(heap: Global, message: &[u8], output: &[u8]) -> anyhow::Result<bool> {
    let mut out = vec![in heap; 0u8; output.len()]?;
    shake(message, out.as_mut_slice());
    if out.as_slice() != output {
        return Ok(false);
    }
    let [label, rest @ ..] = message else {
        return Ok(true);
    };
    let (first, second) = rest.split_at(rest.len() / 2);
    hash(*label, &[first, second], out.as_mut_slice());
    Ok(out.as_slice() == output)
}

// Refuses what is no pairs of digits as the vectors write them. (`decode_to_slice` takes capitals too.)
fn check_digits(digits: &[u8]) -> anyhow::Result<()> {
    let (pairs, rest) = digits.as_chunks::<2>();
    let mut digits = pairs.as_flattened().iter();
    if !digits.all(|c| matches!(c, b'0'..=b'9' | b'a'..=b'f')) {
        return Err(anyhow!("not a hexadecimal digit"));
    }
    if !rest.is_empty() {
        return Err(anyhow!("an odd number of digits"));
    }
    Ok(())
}

// The bytes that pairs of digits write.
fn bytes(heap: Global, digits: &str) -> anyhow::Result<Vec<u8>> {
    let mut bytes = vec![in heap; 0u8; digits.len() / 2]?;
    check_digits(digits.as_bytes())?;
    decode_to_slice(digits, bytes.as_mut_slice())?;
    Ok(bytes)
}

// Runs each vector of the file, writes a line for each, and then the counts.
fn run(rt: &HostRuntime) -> anyhow::Result<()> {
    let heap = rt.alloc();
    let text = fs::read_to_string(rt, "shake256.txt")?;
    let mut message = Vec::new(heap);
    let mut passed = 0u64;
    let mut failed = 0u64;
    for line in text.lines() {
        if let Some(digits) = line.strip_prefix("message = ") {
            message = bytes(heap, digits)?;
        } else if let Some(digits) = line.strip_prefix("output = ") {
            let output = bytes(heap, digits)?;
            let taken = message.len();
            let given = output.len();
            if agrees(heap, message.as_slice(), output.as_slice())? {
                passed = passed.saturating_add(1);
                println!(rt; "ok: {taken} bytes in, {given} bytes out")?;
            } else {
                failed = failed.saturating_add(1);
                println!(rt; "WRONG: {taken} bytes in, {given} bytes out")?;
            }
        }
    }
    println!(rt; "{passed} vectors agree, {failed} do not")?;
    if failed > 0 || passed == 0 {
        return Err(anyhow!("not every vector agrees"));
    }
    Ok(())
}

fn main(rt: HostRuntime) -> anyhow::Result<()> {
    run(&rt)
}
