//! What the definitions say, as functions that do nothing.

ghost use Rattle.std.specs.Prelude.{◌≡◌, ℕ, List};
ghost use Rattle.rpki_cli.specs.Command.{objects_language};
ghost use Rattle.rpki_cli.specs.Language.{IsAsked};
ghost use Rattle.rpki_cli.specs.declared.words.Command.{Command};
ghost use Rattle.rpki_cli.specs.declared.words.Order.{Order};

/// No words ask for two things.
pub fn words_ask_for_one_thing()
    ensures { (words : List (List ℕ)) (a b : Order Command) → IsAsked objects_language words a
        → IsAsked objects_language words b → a ≡ b }
{}
