//! What writing and reading are to each other. Each law is a function with nothing to do, whose contract says it.

ghost use Rattle.std.specs.Prelude.{◌≡◌, ◌<◌, ◌^◌, ℕ, List};
ghost use Rattle.std.specs.List.{flat_map, AllByRecursion};
ghost use Rattle.std.specs.Str.{IsUtf8};
ghost use Rattle.jed_text.specs.Units.{units_of, text_of};
ghost use Rattle.jed_text.specs.Escape.{escaped_units, unescaped_units, pieces_of};

/// The units of a text spell it.
pub fn spells_its_units()
    ensures { (text : List ℕ) → IsUtf8 text → text_of (units_of text) ≡ text }
{}

/// What is escaped and then unescaped is what it was.
pub fn unescapes_what_is_escaped()
    ensures { (units : List ℕ) → AllByRecursion (λ u. u < 2 ^ 16) units
        → unescaped_units (escaped_units units) ≡ units }
{}

/// The pieces of a text, each unescaped, and then joined, spell it.
pub fn joins_what_is_cut()
    ensures { (text : List ℕ) → IsUtf8 text
        → text_of (flat_map unescaped_units (pieces_of text)) ≡ text }
{}
