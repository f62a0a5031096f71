ghost use Rattle.std.specs.Prelude.{◌≡◌};
ghost use Rattle.std.specs.Option.{option_copied};
ghost use Rattle.st_texts.specs.Parts.{after_front, before_end};

/// What follows this front, where the text begins with it.
#[tactic(auto, using(crate::proofs::PartLaws::strips_front))]
pub fn after_front<'a>(text: &'a str, front: &str) -> Option<&'a str>
    ensures { option_copied result ≡ after_front front.now text.now }
{
    text.strip_prefix(front)
}

/// What stands before this end, where the text ends with it.
#[tactic(auto, using(crate::proofs::PartLaws::strips_end))]
pub fn before_end<'a>(text: &'a str, end: &str) -> Option<&'a str>
    ensures { option_copied result ≡ before_end end.now text.now }
{
    text.strip_suffix(end)
}
