// The lines of a text, one after the other.
ghost use Rattle.std.specs.Prelude.{◌≡◌, ◌∷◌, ◌<◌, [], IfSome, IfNone, length};
ghost use Rattle.script_text.specs.Lines.{lines_of, IsFirstCut};

use plain_texts::cut_before;

/// The first line of a text without its line feed, and what follows that; none of an empty text.
pub fn next_line(text: &[u8]) -> Option<(&[u8], &[u8])>
    ensures some { IfSome result (λ parts. lines_of text.now ≡ parts.0.now ∷ lines_of parts.1.now) }
    ensures shorter { IfSome result (λ parts. length parts.1.now < length text.now) }
    ensures cut { IfSome result (λ parts. IsFirstCut text.now parts.0.now parts.1.now) }
    ensures none { IfNone result (text.now ≡ []) }
{
    if text.is_empty() {
        return None;
    }
    let (line, ended) = cut_before(text, b'\n');
    if ended.is_empty() {
        return Some((line, ended));
    }
    Some((line, &ended[1..]))
}
