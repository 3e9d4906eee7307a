ghost use Rattle.book_json.specs.Reads.{rest, Gives};
ghost use Rattle.book_wire.specs.Commodities.{book_currency, commodity_add};

use book_command::Update;
use book_commodity::Commodity;
use book_json::{Fault, Filled, Reading};

pub(crate) fn book_currency(members: &mut Reading) -> Result<Update, Fault>
    ensures { Gives (book_currency (rest members.old)) result (rest members.new) }
{
    let commodity = members.needed("commodity")?;
    Ok(Update::BookCurrency { commodity })
}

pub(crate) fn commodity_add(members: &mut Reading) -> Result<Update, Fault>
    ensures { Gives (commodity_add (rest members.old)) result (rest members.new) }
{
    let space = members.needed::<Filled>("space")?;
    let name = members.needed::<Filled>("name")?;
    let full_name = members.text("full_name")?;
    let fraction = members.needed("fraction")?;
    let commodity = Commodity {
        space: space.into_text(),
        name: name.into_text(),
        full_name,
        fraction,
    };
    Ok(Update::CommodityAdd { commodity })
}
