ghost use Rattle.std.specs.Prelude.{◌≡◌, ◌≤◌, ◌^◌, unsigned_abs};
ghost use Rattle.book_reports.specs.Sections.{amount_in, holds, is_turned, section_name, signed_in};

use book_accounts::AccountKind;
use book_prices::Valuation;

/// A section of a report: the accounts of some kinds.
#[derive(Clone, Copy, Debug)]
pub(crate) enum Section {
    Assets,
    Liabilities,
    Equity,
    Income,
    Expenses,
    Earnings,
}

impl Section {
    /// Whether accounts of the kind stand in the section.
    pub(crate) fn holds(self, kind: AccountKind) -> bool
        ensures { result ≡ holds self kind }
    {
        match self {
            Section::Assets => matches!(
                kind,
                AccountKind::Asset
                    | AccountKind::Bank
                    | AccountKind::Cash
                    | AccountKind::Stock
                    | AccountKind::Mutual
                    | AccountKind::Receivable
            ),
            Section::Liabilities => matches!(
                kind,
                AccountKind::Credit | AccountKind::Liability | AccountKind::Payable
            ),
            Section::Equity => matches!(kind, AccountKind::Equity),
            Section::Income => matches!(kind, AccountKind::Income),
            Section::Expenses => matches!(kind, AccountKind::Expense),
            Section::Earnings => matches!(kind, AccountKind::Income | AccountKind::Expense),
        }
    }

    /// Whether credits are shown as positive amounts.
    fn is_turned(self) -> bool
        ensures { result ≡ is_turned self }
    {
        match self {
            Section::Assets | Section::Expenses => false,
            Section::Liabilities | Section::Equity | Section::Income | Section::Earnings => true,
        }
    }

    /// The name of the section.
    pub(crate) fn name(self) -> &'static str
        ensures { result.now ≡ section_name self }
    {
        match self {
            Section::Assets => "Assets",
            Section::Liabilities => "Liabilities",
            Section::Equity => "Equity",
            Section::Income => "Income",
            Section::Expenses => "Expenses",
            Section::Earnings => "Retained earnings",
        }
    }

    /// A worth with the sign that the section shows it with.
    #[tactic(auto, using(crate::proofs::MeasureLemmas::size_turned))]
    pub(crate) fn signed(self, worth: Valuation) -> Valuation
        requires { unsigned_abs (amount_in worth) ≤ 10 ^ 30 }
        ensures { result ≡ signed_in self worth }
    {
        match worth {
            Valuation::Amount(amount) if self.is_turned() => Valuation::Amount(-amount),
            _ => worth,
        }
    }
}
