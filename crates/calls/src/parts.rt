// Inputs of 96 bytes that hold three values of 32.
ghost use Rattle.std.specs.Prelude.{◌≡◌, [], ◌∷◌, take, drop};

/// The three parts of 32 bytes that stand in 96.
pub fn thirds(bytes: &[u8; 96]) -> [[u8; 32]; 3]
    ensures { result ≡ take 32 bytes.now ∷ take 32 (drop 32 bytes.now) ∷ take 32 (drop 64 bytes.now) ∷ [] }
{
    let (parts, _) = bytes.as_chunks::<32>();
    [parts[0], parts[1], parts[2]]
}
