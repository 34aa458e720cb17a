//! What is so of the texts of journals: functions whose contracts are the laws.
ghost use Rattle.std.specs.Prelude.{◌≡◌, ℕ, List};
ghost use Rattle.chord_base.specs.Bounds.{IsJournal};
ghost use Rattle.chord_base.specs.declared.event.Entry.{Entry};
ghost use Rattle.chord_journal.specs.Text.{journal_text};
ghost use Rattle.chord_journal.specs.Typed.{AreTyped};
ghost use Rattle.chord_journal.specs.Wrong.{IsWrongAt};

/// Two journals have two texts, and a text of a journal has no line that is wrong. So `read` of what `write_text` wrote gives the journal
/// back, or has no memory for it.
pub fn texts()
    ensures one { (one other : List Entry) → IsJournal one → AreTyped one → IsJournal other → AreTyped other → journal_text one ≡ journal_text other → one ≡ other }
    ensures right { (journal : List Entry) (k : ℕ) → IsJournal journal → AreTyped journal → IsWrongAt (journal_text journal) k → ⊥ }
    ensures once { (bytes : List ℕ) (j k : ℕ) → IsWrongAt bytes j → IsWrongAt bytes k → j ≡ k }
{}
