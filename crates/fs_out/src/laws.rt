//! What is read of a target that was written. This function does nothing: it stands for its contract.

ghost use Rattle.std.specs.Prelude.{◌≡◌, ℕ, List, ◌∷◌, ◌++◌, false, Some, Ok};
ghost use Rattle.std.specs.List.{list_any};
ghost use Rattle.fs_text.specs.Words.{is_byte};
ghost use Rattle.fs_out.specs.Targets.{parts_of, target_of};
ghost use Rattle.fs_out.specs.Laws.{IsTarget, spelled};
ghost use Rattle.fs_out.specs.declared.target.Target.{Target};

/// Law: an address is parted at its last colon, whatever stands before that, and a target is read back from the text
/// that says it.
pub fn read_back()
    ensures parts { (host port : List ℕ) → list_any (is_byte 58) port ≡ false
        → parts_of (host ++ 58 ∷ port) ≡ Some (host, port) }
    ensures target { (target : Target) → IsTarget target → target_of (spelled target) ≡ Ok target }
{}
