// Published outputs of SHAKE256, proved to be what its definition gives.
ghost use Rattle.std.specs.Prelude.{◌≡◌, [], drop, replicate};
ghost use Rattle.shake.specs.Shake.{shake256};

/// The first 16 bytes for the empty message.
pub fn empty_message() -> [u8; 16]
    ensures { result ≡ shake256 [] 16 }
{
    [
        0x46, 0xb9, 0xdd, 0x2b, 0x0b, 0xa8, 0x8d, 0x13, 0x23, 0x3b, 0x3f, 0xeb, 0x74, 0x3e, 0xeb,
        0x24,
    ]
}

/// The last 16 of 512 bytes for 200 bytes of hexadecimal a3: two blocks in, four blocks out.
pub fn two_blocks() -> [u8; 16]
    ensures { result ≡ drop 496 (shake256 (replicate 200 0xa3) 512) }
{
    [
        0xca, 0x92, 0xbf, 0x0b, 0xe5, 0x61, 0x5e, 0x96, 0x95, 0x9d, 0x76, 0x71, 0x97, 0xa0, 0xbe,
        0xeb,
    ]
}
