ghost use Rattle.std.specs.Prelude.{◌≡◌, ◌<◌, [], length, Some, OnOk, MatchBool, IfOk, option_map, slice_get};
ghost use Rattle.std.specs.Bool.{OnFalse};
ghost use Rattle.book_commodity.specs.Table.{Rises, value_of};
ghost use Rattle.book_accounts.specs.Rules.{Reports, add_rule, is_within, is_namesake, move_rule, name_taken};
ghost use Rattle.book_accounts.specs.Rules.{namesake, parent_kind, unknown_account};
ghost use Rattle.book_accounts.specs.Soundness.{CanBeAdded, CanBeMoved, CanBeTaken};
ghost use Rattle.book_accounts.specs.Tree.{IsRooted, children_of};

use crate::{Account, AccountKind, Tree, TreeRule};
use book_commodity::Text;

impl Tree {
    /// The first rule of the tree that adding the account would break: its parent isn't there, a sibling has its name,
    /// or its parent is of another group. An account without a parent, whatever its name, breaks the rule of kinds.
    pub fn check_add(&self, account: &Account) -> Result<(), TreeRule>
        ensures first_rule { Reports (add_rule self.now.entries account.now) result }
        ensures keeps { OnOk result (CanBeAdded self.now.entries account.now) }
    {
        let Some(parent) = account.parent else {
            return Err(TreeRule::ParentKind);
        };
        let above = self.known(parent)?;
        self.check_name(None, parent, &account.name)?;
        check_kind(account.kind, above.kind)
    }

    /// The first rule of the tree that giving the account this name and this parent would break: one of the two isn't
    /// there, another account under the parent has the name, the parent is the account or stands under it, or the
    /// parent is of another group.
    pub fn check_move(&self, number: u64, name: &Text, parent: u64) -> Result<(), TreeRule>
        requires { IsRooted self.now.entries }
        ensures first_rule { Reports (move_rule self.now.entries number name.now parent) result }
        ensures keeps { OnOk result (CanBeMoved self.now.entries number name.now parent) }
    {
        let account = self.known(number)?;
        let above = self.known(parent)?;
        self.check_name(Some(number), parent, name)?;
        if self.is_within(number, parent) {
            return Err(TreeRule::Cycle);
        }
        check_kind(account.kind, above.kind)
    }

    /// Whether an account stands right under the one with this number. One with none under it can be taken out.
    pub fn has_children(&self, number: u64) -> bool
        ensures children { let children = children_of self.now.entries (Some number) in
            MatchBool result (0 < length children) (children ≡ []) }
        ensures keeps { OnFalse result (CanBeTaken self.now.entries number) }
    {
        for place in 0..self.len() {
            if self.value_at(place).parent == Some(number) {
                return true;
            }
        }
        false
    }

    /// The account with this number, which has to be there.
    fn known(&self, number: u64) -> Result<&Account, TreeRule>
        ensures there { IfOk result (λ account. value_of number self.now.entries ≡ Some account.now) }
        ensures unknown { Reports (unknown_account self.now.entries number) result }
        ensures rises { Rises self.now.entries }
    {
        match self.accounts.find(number) {
            Some(account) => Ok(account),
            None => Err(TreeRule::UnknownAccount { id: number }),
        }
    }

    /// No account under the parent may have the name; one account is set apart.
    fn check_name(&self, apart: Option<u64>, parent: u64, name: &Text) -> Result<(), TreeRule>
        ensures { Reports (name_taken self.now.entries apart parent name.now) result }
    {
        match self.namesake(apart, parent, name) {
            Some(id) => Err(TreeRule::NameTaken { id }),
            None => Ok(()),
        }
    }

    /// The least number of an account under the parent that has the name, one account set apart.
    fn namesake(&self, apart: Option<u64>, parent: u64, name: &Text) -> Option<u64>
        ensures { result ≡ namesake self.now.entries apart parent name.now }
    {
        for place in 0..self.len() {
            if self.is_namesake(place, apart, parent, name) {
                return Some(self.number_at(place));
            }
        }
        None
    }

    /// Whether the account at a place, which isn't the one set apart, has this parent and this name.
    fn is_namesake(&self, place: usize, apart: Option<u64>, parent: u64, name: &Text) -> bool
        requires { place < length self.now.entries }
        ensures { option_map (is_namesake apart parent name.now) (slice_get self.now.entries place) ≡ Some result }
    {
        apart != Some(self.number_at(place)) && self.value_at(place).is_named(parent, name)
    }

    /// Whether the account with this number is the upper one or stands under it.
    fn is_within(&self, upper: u64, number: u64) -> bool
        requires { IsRooted self.now.entries }
        ensures { result ≡ is_within self.now.entries upper number }
    {
        let mut current = number;
        while current != upper {
            let Some(parent) = self.parent_of(current) else {
                return false;
            };
            current = parent;
        }
        true
    }
}

/// An account of the first kind may stand under one of the second.
fn check_kind(kind: AccountKind, above: AccountKind) -> Result<(), TreeRule>
    ensures { Reports (parent_kind (Some kind) (Some above)) result }
{
    if kind.fits_under(above) {
        Ok(())
    } else {
        Err(TreeRule::ParentKind)
    }
}
