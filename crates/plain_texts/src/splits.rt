// A text cut at a separator, part by part.
ghost use Rattle.std.specs.Prelude.{◌≡◌, ◌∷◌, ◌==◌, ◌↔◌, [], not, IsTrue, MatchOption};
ghost use Rattle.std.specs.List.{prefix_len};
ghost use Rattle.plain_texts.specs.Splits.{parts_of, IsCut};

use std::marker::Model;

/// The parts of a text that are still to come. Contracts see the list of them.
#[derive(Drop)]
pub struct Parts<'a> {
    left: Option<&'a [u8]>,
    separator: u8,
}

impl<'a> Model for Parts<'a> {
    ghost use Rattle.std.specs.Prelude.{List, ℕ};
    ghost use Rattle.std.specs.Option.{option_map};
    ghost use Rattle.plain_texts.specs.Splits.{parts_left};

    ghost Value = { List (List ℕ) };

    ghost view = { λ p. parts_left p.separator (option_map (λ octets. octets.now) p.left) };
}

impl<'a> Parts<'a> {
    /// The parts between the separators: a text without one is one part, and parts may be empty.
    pub fn of(octets: &'a [u8], separator: u8) -> Parts<'a>
        ensures { result ≡ parts_of separator octets.now }
    {
        Parts {
            left: Some(octets),
            separator,
        }
    }

    /// Takes the next part off.
    pub fn next(&mut self) -> Option<&'a [u8]>
        ensures { MatchOption result ((self.old ≡ []) × (self.new ≡ []))
            (λ part. self.old ≡ part.now ∷ self.new) }
    {
        let octets = self.left?;
        let (part, rest) = cut_before(octets, self.separator);
        let Some((_, others)) = rest.split_first() else {
            self.left = None;
            return Some(part);
        };
        self.left = Some(others);
        Some(part)
    }

    pub fn is_empty(&self) -> bool
        ensures { IsTrue result ↔ (self.now ≡ []) }
    {
        match self.left {
            None => true,
            Some(_) => false,
        }
    }
}

/// What stands before the first separator, and what is left from there on.
pub fn cut_before(octets: &[u8], separator: u8) -> (&[u8], &[u8])
    ensures { IsCut separator octets.now result.0.now result.1.now }
{
    octets.split_at(length_before(octets, separator))
}

fn length_before(octets: &[u8], separator: u8) -> usize
    ensures { result ≡ prefix_len (λ octet. not (octet == separator)) octets.now }
{
    octets
        .iter()
        .position(|octet| *octet == separator)
        .unwrap_or(octets.len())
}
