//! A rule that is asked of places.

ghost use Rattle.std.specs.Prelude.{◌≡◌};
ghost use Rattle.bundle_rules.specs.Findings.{Finds};
ghost use Rattle.bundle_rules.specs.Names.{first_broken};

use crate::BundleRefused;
use base_types::TryCopy;
use json_fields::FieldPath;

/// A place within an item, and whether a rule holds there.
#[derive(Debug, Drop)]
pub struct Asked {
    pub item: u32,
    pub path: FieldPath,
    pub holds: bool,
}

// Refuses the first place where the rule does not hold.
pub(crate) fn refuse_first(rule: u32, places: &[Asked]) -> Result<(), BundleRefused>
    ensures { Finds result (first_broken rule places.now) }
{
    for i in 0..places.len() {
        let place = &places[i];
        if !place.holds {
            return Err(BundleRefused::Rule {
                item: place.item,
                rule,
                field: place.path.copy()?,
            });
        }
    }
    Ok(())
}
