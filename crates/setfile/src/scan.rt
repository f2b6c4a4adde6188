// Scanning bytes: spaces, words, and the two sides of a mark.
ghost use Rattle.std.specs.Prelude.{◌≡◌};
ghost use Rattle.setfile.specs.Scan.{space, skipped, before, after, blank, says, Gives};

// A carriage return counts as a space, so a line may end in one.
fn is_space(x: u8) -> bool
    ensures { result ≡ space x }
{
    matches!(x, b' ' | b'\t' | b'\r')
}

// The bytes without the spaces in front.
pub(crate) fn skip(s: &[u8]) -> &[u8]
    ensures { result.now ≡ skipped s.now }
{
    let start = s.iter().position(|x| !is_space(*x)).unwrap_or(s.len());
    &s[start..]
}

// Whether nothing but spaces stands there.
pub(crate) fn is_blank(s: &[u8]) -> bool
    ensures { result ≡ blank s.now }
{
    skip(s).is_empty()
}

// What stands before the first mark, and what follows it where there is one.
pub(crate) fn cut_at(s: &[u8], mark: u8) -> (&[u8], Option<&[u8]>)
    ensures front { result.0.now ≡ before mark s.now }
    ensures rest { Gives result.1 (after mark s.now) }
{
    match s.iter().position(|x| *x == mark) {
        Some(i) => (&s[..i], Some(&s[i + 1..])),
        None => (s, None),
    }
}

// Whether the bytes are this word, with free spaces around it.
pub(crate) fn is_word(s: &[u8], word: &[u8]) -> bool
    ensures { result ≡ says word.now s.now }
{
    skip(s).strip_prefix(word).is_some_and(is_blank)
}
