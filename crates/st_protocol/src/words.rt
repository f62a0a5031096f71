ghost use Rattle.std.specs.Prelude.{◌≡◌, ◌↔◌, IsTrue};
ghost use Rattle.st_words.specs.declared.ids.Who.{Who};
ghost use Rattle.st_words.specs.declared.value.Value.{Value};
ghost use Rattle.st_words.specs.declared.statement.Statement.{Statement};
ghost use Rattle.st_protocol.specs.Words.{same_value, same_who, same_statement};

/// Each test of sameness is true exactly of equal things.
pub fn tests_of_sameness()
    ensures value { (a b : Value) → IsTrue (same_value a b) ↔ (a ≡ b) }
    ensures who { (a b : Who) → IsTrue (same_who a b) ↔ (a ≡ b) }
    ensures statement { (a b : Statement) → IsTrue (same_statement a b) ↔ (a ≡ b) }
{}
