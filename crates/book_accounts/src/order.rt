ghost use Rattle.std.specs.Prelude.{◌≡◌, IfOk};
ghost use Rattle.book_accounts.specs.Order.{ListsEachOnce, depth_first};
ghost use Rattle.book_accounts.specs.Tree.{IsRooted};

use crate::Tree;
use crate::children::Children;
use book_commodity::{Many, OutOfMemory};

impl Tree {
    /// The numbers of all accounts, depth first: each account is followed at once by its children by number, each with
    /// all that stands under it.
    pub fn order(&self) -> Result<Many<u64>, OutOfMemory>
        requires { IsRooted self.now.entries }
        ensures order { IfOk result (λ order. order ≡ depth_first self.now.entries) }
        ensures each_once { IfOk result (ListsEachOnce self.now.entries) }
    {
        let children = Children::of_tree(self)?;
        let mut order = Many::new(self.alloc);
        let mut pending = Vec::new(self.alloc);
        pending.extend_from_slice(children.top.as_slice())?;
        while let Some(number) = pending.pop() {
            order.push(number)?;
            pending.extend_from_slice(children.of(number))?;
        }
        Ok(order)
    }
}
