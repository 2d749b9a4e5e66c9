//! What a dial string is, and what its values say, told apart from the reading. These functions do nothing: each stands
//! for its contract.

ghost use Rattle.std.specs.Prelude.{◌≡◌, ℕ, List, Ok};
ghost use Rattle.fs_dial.specs.DialStrings.{Dial, dial_string};
ghost use Rattle.fs_dial.specs.Pairs.{Pair, plain};
ghost use Rattle.fs_dial.specs.Spelling.{Spells};
ghost use Rattle.fs_dial.specs.Offsets.{DialStands};
ghost use Rattle.fs_dial.specs.Values.{Says};

/// What is read of a text is spelt by it, what it spells is read, and it spells one dial string at most.
pub fn one_dial_string()
    ensures read { (text : List ℕ) (dial : Dial) → dial_string text ≡ Ok dial → Spells text dial }
    ensures spelt { (text : List ℕ) (dial : Dial) → Spells text dial → dial_string text ≡ Ok dial }
    ensures one { (text : List ℕ) (some other : Dial) → Spells text some → Spells text other → some ≡ other }
{}

/// Each part of the dial string that a text is stands in it at its offset.
pub fn each_part_stands()
    ensures { (text : List ℕ) (dial : Dial) → Spells text dial → DialStands text dial }
{}

/// The value of a pair says one text: what is left of it without quotes and backslashes.
pub fn one_value()
    ensures said { (pair : Pair) → Says pair.separator pair.value (plain pair) }
    ensures one { (pair : Pair) (text : List ℕ) → Says pair.separator pair.value text → text ≡ plain pair }
{}
