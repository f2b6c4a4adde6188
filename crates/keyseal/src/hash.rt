// The hash.
ghost use Rattle.std.specs.Prelude.{◌≡◌, length};
ghost use Rattle.shake.specs.Shake.{shake256};

use shake::Absorbing;

/// SHAKE256 of the input, as many bytes as the output has room for.
#[unsafe(no_mangle)]
pub extern "C" fn keyseal_shake256(input: &[u8], output: &mut [u8])
    ensures { output.new ≡ shake256 input.now (length output.old) }
{
    let mut message = Absorbing::new();
    message.absorb(input);
    let mut stream = message.finish();
    stream.squeeze(output);
}
