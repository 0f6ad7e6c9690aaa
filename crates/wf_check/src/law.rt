//! The laws of what is refused.

ghost use Rattle.std.specs.Prelude.{◌≡◌, ℕ, List, Ok, Err, IsTrue};
ghost use Rattle.field_kinds.specs.Reading.{Refusal};
ghost use Rattle.field_kinds.specs.Rules as rules;
ghost use Rattle.wf_manifest.specs.declared.manifest.Manifest.{Manifest};
ghost use Rattle.wf_manifest.specs.Valid.{Valid, lists_are_short, parameters_are_short, retries_fit};
ghost use Rattle.wf_places.specs.declared.place.Place.{Place};
ghost use Rattle.wf_check.specs.Verdicts.{asked, verdict};
ghost use Rattle.wf_check.specs.Laws.{NoneBreaks, IsFirst, HasCircle};

/// Where a rule finds nothing, it is broken at no place.
pub fn asked_ok()
    ensures { (rule : ℕ) (places : List Place) → asked rule places ≡ Ok tt → NoneBreaks rule places }
{}

/// What a rule refuses is the first place at which it is broken.
pub fn asked_err()
    ensures { (rule : ℕ) (places : List Place) (refusal : Refusal) →
        asked rule places ≡ Err refusal → IsFirst rule places refusal }
{}

/// A manifest that the rules let pass, and whose lists and retries are within their limits, is valid.
pub fn checked_valid()
    ensures { (limited : List (List ℕ)) (m : Manifest) → verdict limited m ≡ Ok tt →
        IsTrue (lists_are_short m) → IsTrue (parameters_are_short m) → IsTrue (retries_fit m) → Valid m }
{}

/// Where the rule of circles refuses a manifest, a task of one of its DAGs is its own ancestor.
pub fn cycle_told()
    ensures { (limited : List (List ℕ)) (m : Manifest) (refusal : Refusal) → verdict limited m ≡ Err refusal →
        refusal.rule ≡ rules.cycle → HasCircle m }
{}
