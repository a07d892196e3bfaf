ghost use Rattle.std.specs.Prelude.{◌≡◌, ◌<◌, List, ℕ, length};
ghost use Rattle.script_text.specs.declared.line.Line.{Line as ScriptLine};
ghost use Rattle.script_text.specs.Grammar.{IsLine};
ghost use Rattle.script_text.specs.Ranges.{IsInRange};
ghost use Rattle.script_text.specs.laws.FirstLines.{FirstLineStays};

/// Octets are one line at most.
pub fn one_meaning()
    ensures { (octets : List ℕ) (a b : ScriptLine) → IsLine octets a → IsLine octets b → a ≡ b }
{}

/// The numbers, texts and paths of a line are in their ranges.
pub fn lines_are_in_range()
    ensures { (octets : List ℕ) (line : ScriptLine) → IsLine octets line → IsInRange line }
{}

/// The front of a text decides about its first line the same whatever follows, or that line is at least as long.
pub fn first_lines_stay()
    ensures { (front more : List ℕ) → 0 < length front → FirstLineStays front more }
{}
