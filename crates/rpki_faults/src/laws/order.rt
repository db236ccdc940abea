//! Laws of checks in a given order.

ghost use Rattle.std.specs.Prelude.{◌≡◌, ◌↔◌, ◌⊎◌, ◌++◌, List, Contains, Ok, Err};
ghost use Rattle.rpki_faults.specs.Checks.{Check, AllHold, IsFirstFault, AnswersFirst};
ghost use Rattle.rpki_faults.specs.Checks.{AnswersFirstFault, AnswersFirstOr};
ghost use Rattle.rpki_faults.specs.Checks.{faults_of, ◌as_faults_of◌};

/// Faults, with checks that they are answered by.
pub trait Checks {
    ghost checks: { List (Check Self) };
}

/// Faults, with checks that are made after the others.
pub trait LaterChecks {
    ghost later: { List (Check Self) };
}

/// Values, with what is promised of each.
pub trait Promised {
    ghost promised: { Self → Type 0 };
}

/// A yes means that all checks hold, and that the value is as promised.
pub fn a_yes_means_that_all_hold<F: Checks, T: Promised>()
    ensures { (value : T) → AnswersFirst F.checks T.promised (Ok value) →
        AllHold F.checks × T.promised value }
{}

/// A fault is that of one of the checks, and not all of them hold.
pub fn a_fault_is_of_a_check<F: Checks, T: Promised>()
    ensures contained { (fault : F) → AnswersFirst F.checks T.promised (Err fault) →
        Contains (faults_of F.checks) fault }
    ensures fails { (fault : F) → AnswersFirst F.checks T.promised (Err fault) →
        ¬ (AllHold F.checks) }
{}

/// Where a yes has no value: it means that all checks hold, and a fault is that of one of them, and
/// not all of them hold.
pub fn answers_without_a_value<F: Checks>()
    ensures yes { AnswersFirstFault F.checks (Ok tt) → AllHold F.checks }
    ensures contained { (fault : F) → AnswersFirstFault F.checks (Err fault) →
        Contains (faults_of F.checks) fault }
    ensures fails { (fault : F) → AnswersFirstFault F.checks (Err fault) →
        ¬ (AllHold F.checks) }
{}

/// Where memory may run out: a yes means that all checks hold, and that the value is as promised; a
/// fault says that memory ran out, or is that of one of the checks, and not all of them hold.
pub fn answers_unless_memory_runs_out<F: Checks, T: Promised>()
    ensures yes { (memory : F) (value : T) →
        AnswersFirstOr memory F.checks T.promised (Ok value) →
        AllHold F.checks × T.promised value }
    ensures contained { (memory fault : F) →
        AnswersFirstOr memory F.checks T.promised (Err fault) →
        (fault ≡ memory) ⊎ Contains (faults_of F.checks) fault }
    ensures fails { (memory fault : F) →
        AnswersFirstOr memory F.checks T.promised (Err fault) →
        (fault ≡ memory) ⊎ (¬ (AllHold F.checks)) }
{}

/// One fault is the first.
pub fn one_fault_is_first<F: Checks>()
    ensures { (a b : F) → IsFirstFault F.checks a → IsFirstFault F.checks b → a ≡ b }
{}

/// The fault of a later check is answered only where those in front of it hold.
pub fn later_checks_follow<F: Checks + LaterChecks>()
    ensures hold { AllHold (F.checks ++ F.later) ↔ (AllHold F.checks × AllHold F.later) }
    ensures fault { (fault : F) → IsFirstFault (F.checks ++ F.later) fault
        ↔ (IsFirstFault F.checks fault ⊎ (AllHold F.checks × IsFirstFault F.later fault)) }
{}

/// Checks hold, and have their first fault, however their faults are shown.
pub fn shown_faults<F: Checks, G>()
    ensures hold { (shown : F → G) → AllHold (shown as_faults_of F.checks) ↔ AllHold F.checks }
    ensures fault { (shown : F → G) (fault : F) → IsFirstFault F.checks fault →
        IsFirstFault (shown as_faults_of F.checks) (shown fault) }
    ensures other { (shown : F → G) (other : G) →
        IsFirstFault (shown as_faults_of F.checks) other →
        (fault : F) × IsFirstFault F.checks fault × (other ≡ shown fault) }
{}
