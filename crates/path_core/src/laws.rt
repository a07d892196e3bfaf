ghost use Rattle.std.specs.Prelude.{◌≡◌, List, ℕ};
ghost use Rattle.base_kinds.specs.declared.path.Elem.{Elem as PathElem};
ghost use Rattle.base_kinds.specs.Texts.{path_text};
ghost use Rattle.path_core.specs.PathText.{AreElems, IsPathText, IsValueText};

/// Octets are the text of one path at most.
pub fn one_path()
    ensures { (text : List ℕ) (path other : List PathElem) → IsPathText text path →
        IsPathText text other → path ≡ other }
{}

/// Octets spell one value of a key at most.
pub fn one_value()
    ensures { (text value other : List ℕ) → IsValueText text value → IsValueText text other →
        value ≡ other }
{}

/// A path has one text at most.
pub fn one_text()
    ensures { (text other : List ℕ) (path : List PathElem) → IsPathText text path →
        IsPathText other path → text ≡ other }
{}

/// What is written for a path whose elements have names and rising keys is its text, which is read as that path.
pub fn texts_read_back()
    ensures { (path : List PathElem) → AreElems path → IsPathText (path_text path) path }
{}
