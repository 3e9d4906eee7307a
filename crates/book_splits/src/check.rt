ghost use Rattle.std.specs.Prelude.{◌≡◌, [], ◌∷◌, OnOk};
ghost use Rattle.book_commodity.specs.Table.{value_of};
ghost use Rattle.book_splits.specs.Balance.{sum_of_values};
ghost use Rattle.book_splits.specs.Check.{IsSound, currency_rules, is_over_limit, rules_at, rules_of_splits};
ghost use Rattle.book_splits.specs.Check.{split_count};
ghost use Rattle.book_splits.specs.Check.{txn_rules, unbalanced};
ghost use Rattle.book_commodity.specs.Rules.{ReportsFirst};

use crate::{Split, Txn, TxnRule};
use book_accounts::Tree;
use book_commodity::{Commodities, Counted, Kind};
use book_limits::LARGEST_SPLIT_AMOUNT;

const MAX_SPLITS: usize = 500;

/// The first rule that the transaction breaks among these commodities and accounts: it has 1 to 500 splits; its
/// currency is known and a currency; then split by split the account is known and no placeholder, the amounts are at
/// most 10^13 in size, the basis of a security account is the currency, and on an account in the currency value and
/// quantity are equal; last the values sum to zero. It takes no memory.
pub fn check_txn(commodities: &Commodities, accounts: &Tree, txn: &Txn) -> Result<(), TxnRule>
    ensures first_rule { ReportsFirst (txn_rules commodities.now.entries accounts.now.entries txn.now) result }
    ensures sound { OnOk result (IsSound txn.now.splits) }
{
    let splits = txn.splits.as_slice();
    check_count(splits)?;
    check_currency(commodities, txn.currency)?;
    check_splits(accounts, txn.currency, splits)?;
    check_balance(splits)
}

/// There are 1 to 500 splits.
fn check_count(splits: &[Split]) -> Result<(), TxnRule>
    ensures { ReportsFirst (split_count splits.now ∷ []) result }
{
    let count = splits.len();
    if count < 1 || count > MAX_SPLITS {
        return Err(TxnRule::SplitCount {
            count: count as u64,
        });
    }
    Ok(())
}

/// The commodity is known, and a currency.
fn check_currency(commodities: &Commodities, currency: u64) -> Result<(), TxnRule>
    ensures { ReportsFirst (currency_rules currency (value_of currency commodities.now.entries)) result }
{
    let Some(commodity) = commodities.find(currency) else {
        return Err(TxnRule::Unknown {
            kind: Kind::Commodity,
            id: currency,
        });
    };
    if !commodity.is_currency() {
        return Err(TxnRule::WrongCurrency {
            commodity: currency,
        });
    }
    Ok(())
}

/// Each split keeps its rules, asked in the order of the splits.
fn check_splits(accounts: &Tree, currency: u64, splits: &[Split]) -> Result<(), TxnRule>
    ensures { ReportsFirst (rules_of_splits accounts.now.entries currency 0 splits.now) result }
{
    for (place, split) in splits.iter().enumerate() {
        check_split(accounts, currency, place, split)?;
    }
    Ok(())
}

/// The split at a place keeps its rules.
fn check_split(accounts: &Tree, currency: u64, place: usize, split: &Split) -> Result<(), TxnRule>
    ensures { ReportsFirst (rules_at accounts.now.entries currency place split.now) result }
{
    let Some(account) = accounts.find(split.account) else {
        return Err(TxnRule::Unknown {
            kind: Kind::Account,
            id: split.account,
        });
    };
    if account.placeholder {
        return Err(TxnRule::Placeholder {
            account: split.account,
        });
    }
    if is_over_limit(split.value) || is_over_limit(split.quantity) {
        return Err(TxnRule::Limit {
            which: Counted::Amount,
            at: LARGEST_SPLIT_AMOUNT,
        });
    }
    if account.kind.is_security() && account.basis != Some(currency) {
        return Err(TxnRule::Basis {
            account: split.account,
        });
    }
    if account.commodity == currency && split.value != split.quantity {
        return Err(TxnRule::ValueNotQuantity {
            place: place as u64,
        });
    }
    Ok(())
}

/// Whether the amount of a split is above 10^13 in size.
fn is_over_limit(amount: i64) -> bool
    ensures { result ≡ is_over_limit amount }
{
    amount.unsigned_abs() > LARGEST_SPLIT_AMOUNT
}

/// The values sum to zero.
fn check_balance(splits: &[Split]) -> Result<(), TxnRule>
    ensures { ReportsFirst (unbalanced splits.now ∷ []) result }
{
    let sum = sum_of_values(splits);
    if sum != 0 {
        return Err(TxnRule::Unbalanced { sum });
    }
    Ok(())
}

/// The sum of the values, in smallest units of the transaction's currency.
fn sum_of_values(splits: &[Split]) -> i128
    ensures { result ≡ sum_of_values splits.now }
{
    let mut sum = 0i128;
    for split in splits {
        sum += i128::from(split.value);
    }
    sum
}
