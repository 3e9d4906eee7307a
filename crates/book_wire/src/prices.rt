ghost use Rattle.book_json.specs.Reads.{rest, Gives};
ghost use Rattle.book_wire.specs.Prices.{price, price_drop, price_set};

use book_command::{Update, What};
use book_json::{Fault, Reading};
use book_prices::Price;

pub(crate) fn price_set(members: &mut Reading) -> Result<What, Fault>
    ensures { Gives (price_set (rest members.old)) result (rest members.new) }
{
    let commodity = members.needed("commodity")?;
    let currency = members.needed("currency")?;
    let day = members.needed("day")?;
    let num = members.needed("num")?;
    let denom = members.needed("denom")?;
    let price = Price {
        commodity,
        currency,
        day,
        num,
        denom,
    };
    Ok(What::Update(Update::PriceSet { price }))
}

pub(crate) fn price_drop(members: &mut Reading) -> Result<What, Fault>
    ensures { Gives (price_drop (rest members.old)) result (rest members.new) }
{
    let price = members.needed("price")?;
    Ok(What::Update(Update::PriceDrop { price }))
}

pub(crate) fn price(members: &mut Reading) -> Result<What, Fault>
    ensures { Gives (price (rest members.old)) result (rest members.new) }
{
    let commodity = members.needed("commodity")?;
    let currency = members.needed("currency")?;
    let day = members.needed("day")?;
    Ok(What::Price {
        commodity,
        currency,
        day,
    })
}
