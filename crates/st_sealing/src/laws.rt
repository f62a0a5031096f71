ghost use Rattle.std.specs.Prelude.{◌≡◌, ℕ};
ghost use Rattle.st_words.specs.declared.statement.Statement.{Statement};
ghost use Rattle.st_words.specs.Ranges.{KeepsStatement};
ghost use Rattle.st_words.specs.Spelling.{statement_spelling};
ghost use Rattle.st_sealing.specs.Sealing.{sealed_bytes};

/// A statement that keeps its ranges, of whatever kind, is sealed over its own bytes.
pub fn sealed_as_spelled()
    ensures { (id : ℕ) (s : Statement) → KeepsStatement s → sealed_bytes id s ≡ statement_spelling id s }
{}
