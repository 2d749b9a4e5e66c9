//! What the text of a journal tells. These functions do nothing: each stands for its contract.

ghost use Rattle.std.specs.Prelude.{◌≡◌, List};
ghost use Rattle.fs_machine.specs.declared.entry.Entry.{Entry};
ghost use Rattle.fs_replay.specs.Bounds.{AreFit};
ghost use Rattle.fs_replay.specs.Texts.{journal_text};

/// Law: a text is that of at most one journal. So what was written is read back as it was.
pub fn journal_law()
    ensures { (one other : List Entry) → AreFit one → AreFit other → journal_text one ≡ journal_text other
        → one ≡ other }
{}
