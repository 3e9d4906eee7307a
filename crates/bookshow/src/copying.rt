ghost use Rattle.std.specs.Prelude.{◌≡◌, option_map};
ghost use Rattle.bookshow.specs.CopyWords.{copy_of};

use book_commodity::Text;
use book_show::names_book;

/// The book and the path of its copy, where the words ask for a copy.
pub(crate) fn copy_of(words: &[Text]) -> Option<(&str, &str)>
    ensures { option_map (λ paths. (paths.0.now, paths.1.now)) result ≡ copy_of words.now }
{
    let [book, word, to] = words else {
        return None;
    };
    if word.as_str() == "copy" && names_book(book.as_str()) && names_book(to.as_str()) {
        Some((book.as_str(), to.as_str()))
    } else {
        None
    }
}
