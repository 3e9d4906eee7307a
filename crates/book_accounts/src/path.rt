ghost use Rattle.std.specs.Prelude.{◌≡◌, ◌∷◌, ◌++◌, IfOk, OnOk, IsSome, map, string_bytes};
ghost use Rattle.std.specs.List.{join_with_byte};
ghost use Rattle.book_commodity.specs.Table.{value_of};
ghost use Rattle.book_accounts.specs.Path.{name_at, path};
ghost use Rattle.book_accounts.specs.Tree.{IsRooted, IsWayUp, ancestors};

use crate::Tree;
use book_commodity::{OutOfMemory, Text};

impl Tree {
    /// The names on the way down to the account, from below the root on, separated by `:`; the root's path is empty.
    pub fn path_of(&self, number: u64) -> Result<Text, OutOfMemory>
        requires rooted { IsRooted self.now.entries }
        requires there { IsSome (value_of number self.now.entries) }
        ensures text { IfOk result (λ text. text ≡ path self.now.entries number) }
        ensures way { OnOk result (IsWayUp self.now.entries number (ancestors self.now.entries number)) }
    {
        let mut way = self.way_up(number)?;
        way.reverse();
        let names = self.joined_names(&way[1..])?;
        Ok(Text::of(names))
    }

    /// The account itself and all that it stands under, from the nearest on.
    fn way_up(&self, number: u64) -> Result<Vec<u64>, OutOfMemory>
        requires rooted { IsRooted self.now.entries }
        requires there { IsSome (value_of number self.now.entries) }
        ensures way { OnOk result (IsWayUp self.now.entries number (ancestors self.now.entries number)) }
        ensures items { IfOk result (λ way. way.items ≡ number ∷ ancestors self.now.entries number) }
    {
        let mut way = Vec::new(self.alloc);
        way.push(number)?;
        let mut current = number;
        while let Some(parent) = self.parent_of(current) {
            way.push(parent)?;
            current = parent;
        }
        Ok(way)
    }

    /// The names of the accounts in order, separated by `:`.
    fn joined_names(&self, numbers: &[u64]) -> Result<String, OutOfMemory>
        ensures { IfOk result (λ names.
            string_bytes names ≡ join_with_byte 58 (map (name_at self.now.entries) numbers.now)) }
    {
        let mut names = String::new(self.alloc);
        for (place, number) in numbers.iter().enumerate() {
            if place > 0 {
                names.push(':')?;
            }
            self.push_name(&mut names, *number)?;
        }
        Ok(names)
    }

    /// Writes the name of an account at the end of the names.
    fn push_name(&self, names: &mut String, number: u64) -> Result<(), OutOfMemory>
        ensures { OnOk result (string_bytes names.new ≡ string_bytes names.old ++ name_at self.now.entries number) }
    {
        let Some(account) = self.find(number) else {
            return Ok(());
        };
        names.push_str(account.name.as_str())?;
        Ok(())
    }
}
