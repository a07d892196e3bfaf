//! What holds of the code, whatever decodes it.
ghost use Rattle.std.specs.Prelude.{◌≡◌, ◌≤◌, ◌-◌, ◌^◌, ◌++◌, ℕ, List, Bool, map, sum};
ghost use Rattle.hpack_huff.specs.Code.{code_lengths, code_of, end_mark};
ghost use Rattle.hpack_huff.specs.Huffman.{Huff};

/// One run of octets is the code of at most one text.
pub fn one_text()
    ensures { (octets text other : List ℕ) → Huff octets text → Huff octets other → text ≡ other }
{}

/// No symbol's code begins another's.
pub fn no_code_begins_another()
    ensures { (symbol other : ℕ) (rest : List Bool) → symbol ≤ end_mark → other ≤ end_mark
        → code_of other ≡ code_of symbol ++ rest → symbol ≡ other }
{}

/// The codes fill the tree: Kraft's sum is 1, here over 2 to the power of 30.
pub fn codes_fill_the_tree()
    ensures { sum (map (λ n. 2 ^ (30 - n)) code_lengths) ≡ 2 ^ 30 }
{}
