ghost use Rattle.std.specs.Prelude.{◌≡◌, option_map};
ghost use Rattle.book_app.specs.Words.{account_of, bank_format, format_of, import_of, is_book, is_link_count, is_port};
ghost use Rattle.book_app.specs.Words.{named_book, named_import, named_number, named_serve, qif_format, serve_of};

use book_command::Format;
use book_commodity::Text;
use book_numerals::number_of;

/// The greatest port.
const MAX_PORT: u64 = 65_535;

/// How many links the words may ask for at most.
const MAX_LINKS: u64 = 1_000_000;

/// What the words of `import` name beside the book: the format of the statement file, with the currency of a QIF file,
/// and the account, or none where the bindings say which accounts are meant.
#[derive(Clone, Copy, Debug, PartialEq, Eq)]
pub struct ImportWords {
    pub format: Format,
    pub account: Option<u64>,
}

/// What the words of `serve` name beside the book: the port, from 1 to 65535, and how many links are served, from 1 to
/// 1,000,000.
#[derive(Clone, Copy, Debug, PartialEq, Eq)]
pub struct ServeWords {
    pub port: u16,
    pub links: u64,
}

/// Whether a word names a book: it is not empty and does not begin with a hyphen.
fn names_book(word: &str) -> bool
    ensures { result ≡ is_book word.now }
{
    match word.as_bytes().first() {
        None => false,
        Some(byte) => *byte != b'-',
    }
}

/// The format of a bank's file that names its currencies itself.
fn bank_format(word: &str) -> Option<Format>
    ensures { result ≡ bank_format word.now }
{
    if word == "mt940" {
        Some(Format::Mt940)
    } else if word == "bai2" {
        Some(Format::Bai2)
    } else {
        None
    }
}

/// The format of a QIF file whose amounts are in this currency.
fn qif_format(word: &str, currency: u64) -> Option<Format>
    ensures { result ≡ qif_format word.now currency }
{
    if word == "qif-md" {
        Some(Format::QifMonthFirst { currency })
    } else if word == "qif-dm" {
        Some(Format::QifDayFirst { currency })
    } else {
        None
    }
}

/// The format that a word names with the number of a currency, which is 0 where the file names its currencies itself.
fn format_of(word: &str, currency: u64) -> Option<Format>
    ensures { result ≡ format_of word.now currency }
{
    match qif_format(word, currency) {
        Some(format) => Some(format),
        None if currency == 0 => bank_format(word),
        None => None,
    }
}

/// The account of this number; 0 names none.
fn account_of(number: u64) -> Option<u64>
    ensures { result ≡ account_of number }
{
    if number == 0 { None } else { Some(number) }
}

/// An import of the format that the word names with these numbers of an account and a currency, if there are such.
fn import_of(word: &str, account: Option<u64>, currency: Option<u64>) -> Option<ImportWords>
    ensures { result ≡ import_of word.now account currency }
{
    let Some(account) = account else {
        return None;
    };
    let Some(currency) = currency else {
        return None;
    };
    match format_of(word, currency) {
        Some(format) => Some(ImportWords {
            format,
            account: account_of(account),
        }),
        None => None,
    }
}

/// The import that the words name, where they are `import`, the name of a book, a format, and the numerals of an
/// account and of a currency that goes with the format.
pub fn named_import(words: &[Text]) -> Option<ImportWords>
    ensures { result ≡ named_import words.now }
{
    match words {
        [word, book, format, account, currency]
            if word.as_str() == "import" && names_book(book.as_str()) => {
            let account = number_of(account.as_str());
            let currency = number_of(currency.as_str());
            import_of(format.as_str(), account, currency)
        }
        _ => None,
    }
}

/// Whether a number is that of a port.
fn is_port(number: u64) -> bool
    ensures { result ≡ is_port number }
{
    1 <= number && number <= MAX_PORT
}

/// Whether so many links may be asked for.
fn is_link_count(number: u64) -> bool
    ensures { result ≡ is_link_count number }
{
    1 <= number && number <= MAX_LINKS
}

/// So many links at this port, if there are such.
fn serve_of(port: Option<u64>, links: Option<u64>) -> Option<ServeWords>
    ensures { result ≡ serve_of port links }
{
    let Some(port) = port else {
        return None;
    };
    let Some(links) = links else {
        return None;
    };
    if is_port(port) && is_link_count(links) {
        Some(ServeWords {
            port: port as u16,
            links,
        })
    } else {
        None
    }
}

/// What the words name that are `serve`, the name of a book, and the numerals of a port and of how many links are
/// served.
pub fn named_serve(words: &[Text]) -> Option<ServeWords>
    ensures { result ≡ named_serve words.now }
{
    match words {
        [word, book, port, links] if word.as_str() == "serve" && names_book(book.as_str()) => {
            let port = number_of(port.as_str());
            let links = number_of(links.as_str());
            serve_of(port, links)
        }
        _ => None,
    }
}

/// The book that the words name, where they are `run` and the name of a book, which is not empty and does not begin
/// with a hyphen, or those of an import, or those of `serve`.
pub fn named_book(words: &[Text]) -> Option<&str>
    ensures { option_map (λ book. book.now) result ≡ named_book words.now }
{
    match words {
        [word, book] if word.as_str() == "run" && names_book(book.as_str()) => Some(book.as_str()),
        [_, book, _, _, _] if named_import(words).is_some() => Some(book.as_str()),
        [_, book, _, _] if named_serve(words).is_some() => Some(book.as_str()),
        _ => None,
    }
}

/// The number that the words name, where they are `sample` and a numeral of a number below 2^62. These and the words of
/// `named_book` are the words of the program's grammar.
pub fn named_number(words: &[Text]) -> Option<u64>
    ensures { result ≡ named_number words.now }
{
    match words {
        [word, number] if word.as_str() == "sample" => number_of(number.as_str()),
        _ => None,
    }
}
