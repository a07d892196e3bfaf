// Patterns over paths. A pattern is taken in steps, each up to its next `...`. Behind a `...` a step is tried at one place
// of the path after another, and the first at which it passes serves: a later one leaves a rest of the same rest.
ghost use Rattle.std.specs.Prelude.{◌≡◌, [], ◌&&◌};
ghost use Rattle.std.specs.Str.{bytes_eq};
ghost use Rattle.std.specs.List.{list_any, list_all};
ghost use Rattle.base_kinds.specs.Match.{matches, covers, elem_matches, key_matches};
ghost use Rattle.path_core.specs.inner.Searching.{test_by, IsStep};

use base_kinds::{Elem, Path, Text};

/// How much of a path a pattern is to match.
#[derive(Clone, Copy)]
enum Extent {
    Whole,
    /// Some front.
    Front,
}

/// What a step found out.
enum Step<'a> {
    Match,
    Differs,
    /// Neither the path passes, nor what is left of it behind any of its fronts.
    Never,
    /// What follows the pattern's `...`, and the path from where it stands: some rest of this has to pass.
    Skips(&'a [Elem], &'a [Elem]),
}

/// Whether the pattern matches the whole path. Takes no memory.
pub fn matches(pattern: &Path, path: &Path) -> bool
    ensures { result ≡ matches pattern.now path.now }
{
    passes(Extent::Whole, pattern.items(), path.items())
}

/// Whether the pattern matches some front of the path. Takes no memory.
pub fn covers(pattern: &Path, path: &Path) -> bool
    ensures { result ≡ covers pattern.now path.now }
{
    passes(Extent::Front, pattern.items(), path.items())
}

fn passes(extent: Extent, pattern: &[Elem], path: &[Elem]) -> bool
    ensures { result ≡ test_by extent pattern.now path.now }
{
    let mut patterns = pattern;
    let mut rest = path;
    let mut anchored = true;
    loop {
        match take_step(extent, patterns, rest) {
            Step::Match => return true,
            Step::Never => return false,
            Step::Differs => {
                if anchored {
                    return false;
                }
                let Some((_, elems)) = rest.split_first() else {
                    return false;
                };
                rest = elems;
            }
            Step::Skips(others, elems) => {
                patterns = others;
                rest = elems;
                anchored = false;
            }
        }
    }
}

/// Compares the path with the pattern up to the next `...`.
fn take_step<'a>(extent: Extent, pattern: &'a [Elem], path: &'a [Elem]) -> Step<'a>
    ensures { IsStep result extent pattern.now path.now }
{
    let mut patterns = pattern;
    let mut rest = path;
    loop {
        let Some((first, others)) = patterns.split_first() else {
            return if passes_at_end(extent, rest) {
                Step::Match
            } else {
                Step::Differs
            };
        };
        if is_text(&first.name, b"...") {
            return Step::Skips(others, rest);
        }
        let Some((elem, elems)) = rest.split_first() else {
            return Step::Never;
        };
        if !matches_elem(first, elem) {
            return Step::Differs;
        }
        patterns = others;
        rest = elems;
    }
}

fn passes_at_end(extent: Extent, path: &[Elem]) -> bool
    ensures { result ≡ test_by extent [] path.now }
{
    match extent {
        Extent::Whole => path.is_empty(),
        Extent::Front => true,
    }
}

fn matches_elem(pattern: &Elem, elem: &Elem) -> bool
    ensures { result ≡ elem_matches pattern.now elem.now }
{
    (is_text(&pattern.name, b"*") || is_text(&pattern.name, elem.name.octets()))
        && matches_keys(pattern.keys.items(), elem)
}

fn matches_keys(keys: &[(Text, Text)], elem: &Elem) -> bool
    ensures { result ≡ list_all (key_matches elem.now) keys.now }
{
    for key in keys {
        if !matches_key(elem, key) {
            return false;
        }
    }
    true
}

fn matches_key(elem: &Elem, key: &(Text, Text)) -> bool
    ensures { result ≡ key_matches elem.now key.now }
{
    is_text(&key.1, b"*") || has_key(elem.keys.items(), key)
}

fn has_key(keys: &[(Text, Text)], key: &(Text, Text)) -> bool
    ensures { result ≡
        list_any (λ other. bytes_eq key.now.0 other.0 && bytes_eq key.now.1 other.1) keys.now }
{
    for other in keys {
        if is_text(&key.0, other.0.octets()) && is_text(&key.1, other.1.octets()) {
            return true;
        }
    }
    false
}

fn is_text(text: &Text, octets: &[u8]) -> bool
    ensures { result ≡ bytes_eq text.now octets.now }
{
    text.octets() == octets
}
