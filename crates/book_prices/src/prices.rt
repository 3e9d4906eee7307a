ghost use Rattle.std.specs.Prelude.{◌≡◌, ℕ, ◌+◌, ◌<◌, ◌≤◌, All, IsNone, OnOk, OnErr, Some, if◌then◌else◌, is_some};
ghost use Rattle.std.specs.Prelude.{is_none, length, option_map, []};
ghost use Rattle.std.specs.Option.{option_copied};
ghost use Rattle.std.specs.List.{slice_get};
ghost use Rattle.book_commodity.specs.Table.{Rises, value_of, with_entry, without_entry};
ghost use Rattle.book_prices.specs.Rate.{AreOnce, IsBest, IsRate, IsSame, IsSound};

use crate::Price;
use crate::price::{are_same, last_of, rate_of, turned_rate_of};
use book_commodity::{Day, OutOfMemory, Rate, Table};
use std::alloc::Global;
use std::marker::Model;

/// The prices of a book by their numbers, which contracts see as a table's entries and its room.
#[derive(Drop)]
pub struct Prices {
    table: Table<Price>,
}

impl Model for Prices {
    ghost use Rattle.book_commodity.specs.Table.{Entries};
    ghost use Rattle.book_prices.specs.declared.price.Price.{Price};

    ghost Value = { Entries Price };

    ghost view = { λ p. p.table };
}

/// The last price of a pair and of the swapped pair.
#[derive(Clone, Copy)]
struct LastPrices {
    direct: Option<Price>,
    swapped: Option<Price>,
}

impl Prices {
    /// No prices; it takes no memory.
    pub fn new(alloc: Global) -> Prices
        ensures { result.entries ≡ [] }
    {
        Prices {
            table: Table::new(alloc),
        }
    }

    /// How many prices there are.
    pub fn len(&self) -> usize
        ensures len { result ≡ length self.now.entries }
        ensures rises { Rises self.now.entries }
    {
        self.table.len()
    }

    /// The price under this number; `None` where there is none.
    pub fn find(&self, number: u64) -> Option<&Price>
        ensures { option_copied result ≡ value_of number self.now.entries }
    {
        self.table.find(number)
    }

    /// The number of the price at a place.
    pub fn number_at(&self, place: usize) -> u64
        requires { place < length self.now.entries }
        ensures { option_map (λ entry. entry.0) (slice_get self.now.entries place) ≡ Some result }
    {
        self.table.number_at(place)
    }

    /// The price at a place.
    pub fn value_at(&self, place: usize) -> &Price
        requires { place < length self.now.entries }
        ensures { option_map (λ entry. entry.1) (slice_get self.now.entries place) ≡ Some result.now }
    {
        self.table.value_at(place)
    }

    /// Makes room for so many more prices; the prices stay, and no room is lost where it is out of memory.
    pub fn reserve(&mut self, extra: usize) -> Result<(), OutOfMemory>
        ensures room { OnOk result (extra ≤ self.new.spare) }
        ensures full { OnErr result (self.old.spare < extra) }
        ensures entries { self.new.entries ≡ self.old.entries }
        ensures spare { self.old.spare ≤ self.new.spare }
    {
        self.table.reserve(extra)
    }

    /// Puts the price under the number, and hands back the one that stood there. It takes no memory.
    pub fn put(&mut self, number: u64, price: Price) -> Option<Price>
        requires { IsNone (value_of number self.old.entries) → 1 ≤ self.old.spare }
        ensures entries { self.new.entries ≡ with_entry number price self.old.entries }
        ensures old { result ≡ value_of number self.old.entries }
        ensures spare { self.old.spare ≡ self.new.spare + (if is_none result then 1 else 0) }
    {
        self.table.put(number, price)
    }

    /// Takes the price under the number out of the table; `None` where there is none. It takes no memory.
    pub fn take(&mut self, number: u64) -> Option<Price>
        ensures entries { self.new.entries ≡ without_entry number self.old.entries }
        ensures old { result ≡ value_of number self.old.entries }
        ensures spare { self.new.spare ≡ self.old.spare + (if is_some result then 1 else 0) }
    {
        self.table.take(number)
    }

    /// The rate between a commodity and a currency on a day, `None` exactly where there is none. The table has one
    /// price for each commodity, currency and day, and the numbers of each are 1 to 10^9.
    pub fn price_at(&self, commodity: u64, currency: u64, day: Day) -> Option<Rate>
        requires once { AreOnce self.now.entries }
        requires sound { All (λ entry. IsSound entry.1) self.now.entries }
        ensures { IsRate self.now.entries commodity currency day result }
    {
        if commodity == currency {
            return Some(Rate { num: 1, denom: 1 });
        }
        let LastPrices { direct, swapped } = self.last_prices(commodity, currency, day);
        if let Some(price) = direct {
            return Some(rate_of(&price));
        }
        let Some(price) = swapped else {
            return None;
        };
        Some(turned_rate_of(&price))
    }

    /// The number of the price that has this one's commodity, currency and day; `None` exactly where none has. The
    /// table has one price for each of these.
    pub fn same(&self, price: &Price) -> Option<u64>
        requires once { AreOnce self.now.entries }
        ensures { IsSame self.now.entries price.now result }
    {
        for place in 0..self.table.len() {
            if are_same(self.table.value_at(place), price) {
                return Some(self.table.number_at(place));
            }
        }
        None
    }

    fn last_prices(&self, commodity: u64, currency: u64, day: Day) -> LastPrices
        ensures direct { IsBest self.now.entries commodity currency day result.direct }
        ensures swapped { IsBest self.now.entries currency commodity day result.swapped }
    {
        let mut direct = None;
        let mut swapped = None;
        for place in 0..self.table.len() {
            let price = self.table.value_at(place);
            direct = last_of(direct, price, commodity, currency, day);
            swapped = last_of(swapped, price, currency, commodity, day);
        }
        LastPrices { direct, swapped }
    }
}
