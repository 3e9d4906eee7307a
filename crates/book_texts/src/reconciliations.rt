ghost use Rattle.std.specs.Prelude.{◌≡◌, IfOk};
ghost use Rattle.book_texts.specs.Fields.{members_of};
ghost use Rattle.book_texts.specs.Reconciliations.{recon_data, recon_members, recon-plain, reconciled, recons};

use crate::fields::Fields;
use crate::shown::Shown;
use book_command::{ReconShown, Word};
use book_commodity::Many;
use serde_json::Value;
use std::alloc::{AllocError, Global};

/// The answer of `reconcile` and of `reconcile_statement`.
pub(crate) fn reconciled(
    alloc: Global,
    word: Word,
    reconciliation: u64,
    marked: &Many<u64>,
    version: u64,
) -> Result<Fields, AllocError>
    ensures { IfOk result (λ fields. members_of fields ≡ reconciled word reconciliation marked.now version) }
{
    let fields = Fields::answered(alloc, word, version)?;
    let fields = fields.with("marked", marked)?;
    Ok(fields.with("reconciliation", &reconciliation)?)
}

/// The answer of `recons`.
pub(crate) fn listed_recons(
    alloc: Global,
    shown: &Many<ReconShown>,
    version: u64,
) -> Result<Fields, AllocError>
    ensures { IfOk result (λ fields. members_of fields ≡ recons shown.now version) }
{
    let fields = Fields::answered(alloc, Word::Recons, version)?;
    Ok(fields.with("recons", shown)?)
}

/// A reconciliation, by its members.
impl Shown for ReconShown {
    ghost shown = { recon_data };

    ghost plain = { recon-plain };

    fn value(&self, alloc: Global) -> Result<Value, AllocError> {
        Ok(recon_fields(alloc, self)?.into_value())
    }
}

/// The members of a reconciliation.
fn recon_fields(alloc: Global, shown: &ReconShown) -> Result<Fields, AllocError>
    ensures { IfOk result (λ fields. members_of fields ≡ recon_members shown.now) }
{
    let fields = Fields::new(alloc).with("closing", &shown.closing)?;
    let fields = fields.with("day", &shown.day)?;
    let fields = fields.with("id", &shown.id)?;
    let fields = fields.with("intact", &shown.intact)?;
    let fields = fields.with("marked", &shown.marked)?;
    Ok(fields.with("opening", &shown.opening)?)
}
