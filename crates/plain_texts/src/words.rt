// Words that a grammar names.
ghost use Rattle.std.specs.Prelude.{◌≡◌};
ghost use Rattle.std.specs.Str.{bytes_eq};

/// Whether the octets are this word.
pub fn is_word(octets: &[u8], word: &[u8]) -> bool
    ensures { result ≡ bytes_eq octets.now word.now }
{
    octets == word
}
