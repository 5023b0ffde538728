//! Laws of the bytes of commands.
ghost use Rattle.std.specs.Prelude.{◌≡◌, ◌++◌, ◌∷◌, ◌<◌, ◌^◌, [], ℕ, List, Some, length};
ghost use Rattle.book_rows.specs.declared.commands.Command.{Command};
ghost use Rattle.cmd_codec.specs.Spelling.{spelling};
ghost use Rattle.wire_fields.specs.Fields.{AreBytes};
ghost use Rattle.cmd_codec.specs.Records.{IsSpelled, AreSpelled, record_of, commands_of};
ghost use Rattle.cmd_codec.specs.Earlier.{earlier_commands_of, HaveNoTombstones};

/// No spelling of a command begins another.
pub fn begins_no_other()
    ensures { (a b : Command) (x y : List ℕ) → IsSpelled a → IsSpelled b
        → spelling a ++ x ≡ spelling b ++ y → (a ≡ b) × (x ≡ y) }
{}

/// The spelling of commands, at least one, reads as these commands.
pub fn reads_what_it_writes()
    ensures one { (c : Command) → IsSpelled c → commands_of (spelling c) ≡ Some (c ∷ []) }
    ensures all { (cs : List Command) → AreSpelled cs → 0 < length cs → commands_of (record_of cs) ≡ Some cs }
{}

/// A spelling has at least a byte, and its length fits four bytes.
pub fn has_length()
    ensures { (c : Command) → IsSpelled c → (0 < length (spelling c)) × (length (spelling c) < 2 ^ 32) }
{}

/// A body that was a record's before there were tombstones reads as the same commands, which have
/// none.
pub fn reads_earlier_records()
    ensures { (body : List ℕ) (cs : List Command) → AreBytes body → earlier_commands_of body ≡ Some cs → (commands_of body ≡ Some cs) × HaveNoTombstones cs }
{}
