//! What writing and reading are to each other. Each law is a function with nothing to do, whose contract says it.

ghost use Rattle.std.specs.Prelude.{◌≡◌, ◌≢◌, ℕ, List, Some, None, true};
ghost use Rattle.std.specs.Str.{IsUtf8};
ghost use Rattle.item_text.specs.declared.bad_item.BadItem.{BadItem};
ghost use Rattle.item_text.specs.declared.item.Item.{Item};
ghost use Rattle.item_text.specs.declared.item.Prop.{Prop};
ghost use Rattle.item_text.specs.Props.{type_key, value_of, with_prop};
ghost use Rattle.item_text.specs.Valid.{is_type_value, IsProp, IsItem};
ghost use Rattle.item_text.specs.Grammar.{ReadsAs, written, first_fault, item_in};
ghost use Rattle.item_text.specs.Escape.{escaped, unescaped};

/// The text of a valid item reads as that item, and nothing refuses it.
pub fn reads_what_is_written()
    ensures { (item : Item) → IsItem item → IsUtf8 (written item)
        → ReadsAs (written item) item × (first_fault (written item) ≡ None) }
{}

/// What is read is valid.
pub fn what_is_read_is_valid()
    ensures { (bytes : List ℕ) (item : Item) → ReadsAs bytes item → first_fault bytes ≡ None
        → IsItem item }
{}

/// A text reads as one item only.
pub fn reads_as_one()
    ensures { (bytes : List ℕ) (item other : Item) → ReadsAs bytes item → ReadsAs bytes other
        → item ≡ other }
{}

/// The bytes read to an item exactly if they read as it and nothing refuses them.
pub fn reads_to_what_it_reads_as()
    ensures as_item { (bytes : List ℕ) (item : Item) → item_in bytes ≡ Some item
        → ReadsAs bytes item × (first_fault bytes ≡ None) }
    ensures to_item { (bytes : List ℕ) (item : Item) → ReadsAs bytes item → first_fault bytes ≡ None
        → item_in bytes ≡ Some item }
    ensures refused { (bytes : List ℕ) (bad : BadItem) → first_fault bytes ≡ Some bad
        → item_in bytes ≡ None }
{}

/// Setting a pair gives its key the value, and leaves the values of the other keys.
pub fn sets_one_key()
    ensures gives { (p : Prop) (ps : List Prop) → value_of p.key (with_prop p ps) ≡ Some p.value }
    ensures keeps { (key : List ℕ) (p : Prop) (ps : List Prop) → p.key ≢ key
        → value_of key (with_prop p ps) ≡ value_of key ps }
{}

/// A valid item stays valid when a valid pair is set; a `type_` needs a value of one to three digits.
pub fn setting_keeps_valid()
    ensures { (item : Item) (p : Prop) → IsItem item → IsProp p
        → (p.key ≡ type_key → is_type_value p.value ≡ true)
        → IsItem (record item { props = with_prop p item.props }) }
{}

/// What was escaped and is unescaped is what it was.
pub fn unescapes_what_is_escaped()
    ensures { (value : List ℕ) → unescaped (escaped value) ≡ value }
{}
