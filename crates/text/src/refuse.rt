ghost use Rattle.std.specs.Prelude.{◌≡◌};
ghost use Rattle.table.specs.declared.refusal.Layer.TheVariants.{Sheet};
ghost use Rattle.table.specs.Refusals.{refusal};

use table::refusal::{Layer, Reason, Refusal};

// A line's refusal at a place.
pub(crate) fn refuse(reason: Reason, place: usize) -> Refusal
    ensures { result ≡ refusal Sheet reason place }
{
    Refusal::new(Layer::Sheet, reason, place)
}
