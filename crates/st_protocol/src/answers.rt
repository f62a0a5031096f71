ghost use Rattle.std.specs.Prelude.{◌≡◌, ℕ, List, [], ◌∷◌, ◌++◌};
ghost use Rattle.st_words.specs.declared.value.Value.{Value};
ghost use Rattle.st_words.specs.declared.statement.Statement.{Statement};
ghost use Rattle.st_message.specs.declared.change.Change.{Change};
ghost use Rattle.st_message.specs.declared.change.Change.TheVariants as changes;
ghost use Rattle.st_message.specs.declared.change.Heard.{Heard};
ghost use Rattle.st_message.specs.declared.step.Step.{Step};
ghost use Rattle.st_protocol.specs.Words.{Bytes, Quorum};
ghost use Rattle.st_protocol.specs.State.{Seat, Answers, Run};
ghost use Rattle.st_protocol.specs.Questions.{executed_in, executed_values, runs, run_on, no_run, questions};
ghost use Rattle.st_protocol.specs.Growth.{notes, cuts, grown, after, after_all, hears, hears_all};
ghost use Rattle.st_protocol.specs.Duty.{Pen, course};

/// What is picked of the two lists is what the answers grow to: by each change that was recorded, then by
/// each thing that was heard, less what the state that they leave has left behind.
pub fn answers_that_grow()
    ensures { (seat : Seat) (records : List (List Change)) (heard : List Heard) → questions seat records heard ≡ grown seat records heard }
{}

/// What longer lists answer follows from what shorter ones do, for any lists: one body more, one thing
/// heard more, and more things heard; and the answers at the end of an event's course are those of the
/// lists with what the event adds.
pub fn answers_of_longer_lists()
    ensures body { (seat : Seat) (records : List (List Change)) (heard : List Heard) (body : List Change) →
        questions seat (records ++ body ∷ []) heard ≡ after_all (questions seat records heard) body }
    ensures heard { (seat : Seat) (records : List (List Change)) (heard : List Heard) (m : Heard) →
        questions seat records (heard ++ m ∷ []) ≡ hears (questions seat records heard) m }
    ensures more { (seat : Seat) (records : List (List Change)) (heard others : List Heard) →
        questions seat records (heard ++ others) ≡ hears_all (questions seat records heard) others }
    ensures course { (seat : Seat) (records : List (List Change)) (heard : List Heard) (pen : Pen) (step : Step) →
        (course pen (questions seat records heard) step).now
        ≡ questions seat (records ++ (course pen (questions seat records heard) step).changes ∷ []) (heard ++ (course pen (questions seat records heard) step).heard) }
{}

/// What was dropped is dropped for good, and four kinds of change drop nothing: a statement that is made,
/// prepared, accepted, or a union that is held.
pub fn answers_that_drop_nothing()
    ensures again { (seat : Seat) (records : List (List Change)) (heard : List Heard) → cuts (questions seat records heard) ≡ questions seat records heard }
    ensures made { (state : Answers) (leaf : ℕ) (s : Statement) → cuts state ≡ state → after state (changes.Made leaf s) ≡ notes state (changes.Made leaf s) }
    ensures prepared { (state : Answers) (s : Statement) (q : Quorum) → cuts state ≡ state → after state (changes.Prepared s q) ≡ notes state (changes.Prepared s q) }
    ensures accepted { (state : Answers) (s : Statement) (q : Quorum) → cuts state ≡ state → after state (changes.Accepted s q) ≡ notes state (changes.Accepted s q) }
    ensures union { (state : Answers) (s : Statement) (q : Quorum) → cuts state ≡ state → after state (changes.Union s q) ≡ notes state (changes.Union s q) }
{}

/// The log is the run of the values that the records execute, from an empty service with no client's time;
/// one value more is one run more.
pub fn log_that_runs()
    ensures run { (seat : Seat) (records : List (List Change)) (heard : List Heard) →
        (questions seat records heard).log.run ≡ run_on seat.serve no_run (executed_values records) }
    ensures more { (serve : List Bytes → Bytes → Bytes) (run : Run) (values : List Value) (value : Value) →
        run_on serve run (values ++ value ∷ []) ≡ runs serve (run_on serve run values) value }
    ensures body { (records : List (List Change)) (body : List Change) → executed_values (records ++ body ∷ []) ≡ executed_values records ++ executed_in body }
{}
