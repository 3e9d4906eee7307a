ghost use Rattle.std.specs.Prelude.{◌≡◌, [], ◌∷◌, IfOk};
ghost use Rattle.book_texts.specs.Fields.{broken, members_of};
ghost use Rattle.book_texts.specs.RuleText.{named_by, rule_bytes, rule_members};

use crate::fields::Fields;
use crate::shown::Shown;
use crate::statement_faults::bad_statement;
use book_command::Rule;
use book_commodity::{Bytes, Counted, Kind, OutOfMemory};
use std::alloc::{AllocError, Global};

/// The line that answers a command which would break the rule, without its line feed; `version` is the one that stays.
/// The only error is out of memory.
pub fn rule_text(alloc: Global, rule: &Rule, version: u64) -> Result<Bytes, OutOfMemory>
    ensures { IfOk result (λ text. text ≡ rule_bytes rule.now version) }
{
    rule_fields(alloc, rule, version)?.line()
}

fn rule_fields(alloc: Global, rule: &Rule, version: u64) -> Result<Fields, AllocError>
    ensures { IfOk result (λ fields. members_of fields ≡ rule_members rule.now version) }
{
    match rule {
        Rule::Stale { now } => one(alloc, "Stale", "now", now, version),
        Rule::Unknown { kind, id } => kind_and_id(alloc, "Unknown", *kind, *id, version),
        Rule::NameTaken { id } => one(alloc, "NameTaken", "id", id, version),
        Rule::Cycle => Fields::broken(alloc, "Cycle", version),
        Rule::ParentKind => Fields::broken(alloc, "ParentKind", version),
        Rule::Root => Fields::broken(alloc, "Root", version),
        Rule::Placeholder { account } => one(alloc, "Placeholder", "account", account, version),
        Rule::NotEmpty { account } => one(alloc, "NotEmpty", "account", account, version),
        Rule::InUse { kind, id } => kind_and_id(alloc, "InUse", *kind, *id, version),
        Rule::FractionShape => Fields::broken(alloc, "FractionShape", version),
        Rule::BasisShape => Fields::broken(alloc, "BasisShape", version),
        Rule::SplitCount { count } => one(alloc, "SplitCount", "count", count, version),
        Rule::WrongCurrency { commodity } => one(
            alloc,
            "WrongCurrency",
            "commodity",
            commodity,
            version,
        ),
        Rule::Basis { account } => one(alloc, "Basis", "account", account, version),
        Rule::ValueNotQuantity { place } => one(alloc, "ValueNotQuantity", "place", place, version),
        Rule::Unbalanced { sum } => one(alloc, "Unbalanced", "sum", sum, version),
        Rule::Reconciled { split } => one(alloc, "Reconciled", "split", split, version),
        Rule::Voided { transaction } => one(alloc, "Voided", "transaction", transaction, version),
        Rule::NotVoided { transaction } => one(
            alloc,
            "NotVoided",
            "transaction",
            transaction,
            version,
        ),
        Rule::BadStatement { fault } => bad_statement(alloc, *fault, version),
        Rule::Unbound { text } => one(alloc, "Unbound", "text", text, version),
        Rule::LineTaken { line } => one(alloc, "LineTaken", "line", line, version),
        Rule::LineAmount { line } => one(alloc, "LineAmount", "line", line, version),
        Rule::NoClosing { statement } => one(alloc, "NoClosing", "statement", statement, version),
        Rule::Difference { by } => one(alloc, "Difference", "by", by, version),
        Rule::PriceShape => Fields::broken(alloc, "PriceShape", version),
        Rule::DayRange => Fields::broken(alloc, "DayRange", version),
        Rule::RecurrenceShape { place } => one(alloc, "RecurrenceShape", "place", place, version),
        Rule::NothingToUndo => Fields::broken(alloc, "NothingToUndo", version),
        Rule::NothingToRedo => Fields::broken(alloc, "NothingToRedo", version),
        Rule::Limit { which, at } => limit(alloc, *which, *at, version),
    }
}

/// A rule with one field.
fn one<T: Shown>(
    alloc: Global,
    name: &str,
    field: &str,
    value: &T,
    version: u64,
) -> Result<Fields, AllocError>
    ensures { IfOk result (λ fields. members_of fields
        ≡ broken name.now ((field.now, T.shown value.now) ∷ []) version) }
{
    let fields = Fields::broken(alloc, name, version)?;
    Ok(fields.with(field, value)?)
}

/// A rule of a thing of a kind.
fn kind_and_id(
    alloc: Global,
    name: &str,
    kind: Kind,
    id: u64,
    version: u64,
) -> Result<Fields, AllocError>
    ensures { IfOk result (λ fields. members_of fields ≡ broken name.now (named_by kind id) version) }
{
    let fields = Fields::broken(alloc, name, version)?;
    Ok(fields.with("kind", &kind)?.with("id", &id)?)
}

fn limit(alloc: Global, which: Counted, at: u64, version: u64) -> Result<Fields, AllocError>
    ensures { IfOk result (λ fields. members_of fields ≡ rule_members (Rule.Limit which at) version) }
{
    let fields = Fields::broken(alloc, "Limit", version)?;
    Ok(fields.with("which", &which)?.with("at", &at)?)
}
