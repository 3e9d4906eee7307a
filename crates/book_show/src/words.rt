ghost use Rattle.std.specs.Prelude.{◌≡◌, ◌^◌, nat_lt, if◌then◌else◌, Some, None, IfOk, option_and_then, option_map};
ghost use Rattle.std.specs.Char.{is_ascii_digit};
ghost use Rattle.std.specs.List.{list_all};
ghost use Rattle.book_json.specs.Forms.{day_named};
ghost use Rattle.book_show.specs.Words.{alone, asked_of, asks, form_of, has_digits, in_form, is_book, number_of};
ghost use Rattle.book_show.specs.Words.{question_of, with_one, with_two, without_form};
ghost use Rattle.book_show.specs.Asked.{seen};

use crate::Question;
use book_commodity::{Day, OutOfMemory, Text};
use book_listings::Days;
use book_reports::Form;

/// What the words ask: a question on a book, answered in a form.
#[derive(Drop)]
pub struct Asked<'a> {
    pub book: &'a str,
    pub question: Question,
    pub form: Form,
}

/// What the words of the program ask; None where they ask nothing.
pub fn asked_of(words: &[Text]) -> Result<Option<Asked<'_>>, OutOfMemory>
    ensures { IfOk result (λ asked. option_map seen asked ≡ asked_of words.now) }
{
    let form = form_of(words);
    asks(form, without_form(words, form))
}

/// The form that the last word asks for.
fn form_of(words: &[Text]) -> Form
    ensures { result ≡ form_of words.now }
{
    match words.last() {
        Some(last) if last.as_str() == "--csv" => Form::Csv,
        _ => Form::Plain,
    }
}

/// The words but for the one that asks for a form.
fn without_form(words: &[Text], form: Form) -> &[Text]
    ensures { result.now ≡ without_form form words.now }
{
    match form {
        Form::Csv => &words[..words.len().saturating_sub(1)],
        Form::Plain => words,
    }
}

/// What a book and the words behind it ask.
fn asks(form: Form, words: &[Text]) -> Result<Option<Asked<'_>>, OutOfMemory>
    ensures { IfOk result (λ asked. option_map seen asked ≡ asks form words.now) }
{
    let [book, rest @ ..] = words else {
        return Ok(None);
    };
    if !names_book(book.as_str()) {
        return Ok(None);
    }
    match question_in(form, rest) {
        Ok(Some(question)) => Ok(Some(Asked {
            book: book.as_str(),
            question,
            form,
        })),
        Ok(None) => Ok(None),
        Err(OutOfMemory) => Err(OutOfMemory),
    }
}

/// The question of words, where it is answered in a form.
fn question_in(form: Form, words: &[Text]) -> Result<Option<Question>, OutOfMemory>
    ensures { IfOk result (λ question. question ≡ option_and_then (in_form form) (question_of words.now)) }
{
    match question_of(words) {
        Ok(Some(question)) => Ok(in_form(form, question)),
        Ok(None) => Ok(None),
        Err(OutOfMemory) => Err(OutOfMemory),
    }
}

/// The question, where it is answered in a form: a command line, the exported book and what a check finds are no
/// tables.
fn in_form(form: Form, question: Question) -> Option<Question>
    ensures { result ≡ in_form form question }
{
    match (form, question) {
        (Form::Csv, Question::Command(_) | Question::Export | Question::Check) => None,
        (_, question) => Some(question),
    }
}

/// The numbers of things are below 2^62.
const NUMBER_LIMIT: u64 = 1 << 62;

/// Whether a word names a book: it is not empty and does not begin with a hyphen.
pub fn names_book(word: &str) -> bool
    ensures { result ≡ is_book word.now }
{
    match word.as_bytes().first() {
        None => false,
        Some(byte) => *byte != b'-',
    }
}

/// Whether each byte of a word is a decimal digit.
fn are_digits(word: &str) -> bool
    ensures { result ≡ list_all is_ascii_digit word.now }
{
    word.as_bytes().iter().all(|byte| byte.is_ascii_digit())
}

/// Whether a word has decimal digits alone, at least one.
fn has_digits(word: &str) -> bool
    ensures { result ≡ has_digits word.now }
{
    !word.is_empty() && are_digits(word)
}

/// The number, where it is below 2^62.
fn below_limit(number: u64) -> Option<u64>
    ensures { result ≡ (if nat_lt number (2 ^ 62) then Some number else None) }
{
    if number < NUMBER_LIMIT {
        Some(number)
    } else {
        None
    }
}

/// The number that a word of decimal digits spells, where it is below 2^62.
fn number_of(word: &str) -> Option<u64>
    ensures { result ≡ number_of word.now }
{
    if !has_digits(word) {
        return None;
    }
    match word.parse::<u64>() {
        Ok(number) => below_limit(number),
        Err(_) => None,
    }
}

/// The day that a word names.
fn day_of(word: &str) -> Option<Day>
    ensures { result ≡ day_named word.now }
{
    Day::of_text(word.as_bytes())
}

/// The question of words; None where they ask nothing.
fn question_of(words: &[Text]) -> Result<Option<Question>, OutOfMemory>
    ensures { IfOk result (λ question. question ≡ question_of words.now) }
{
    match words {
        [word] => Ok(alone(word.as_str())),
        [word, one] => with_one(word.as_str(), one),
        [word, one, two] => Ok(with_two(word.as_str(), one.as_str(), two.as_str())),
        _ => Ok(None),
    }
}

/// The question of a word alone.
fn alone(word: &str) -> Option<Question>
    ensures { result ≡ alone word.now }
{
    match word {
        "accounts" => Some(Question::Accounts),
        "commodities" => Some(Question::Commodities),
        "prices" => Some(Question::Prices),
        "schedules" => Some(Question::Schedules),
        "journal" => Some(Question::Journal(None)),
        "export" => Some(Question::Export),
        "check" => Some(Question::Check),
        _ => None,
    }
}

/// The question of a word with one more.
fn with_one(word: &str, one: &Text) -> Result<Option<Question>, OutOfMemory>
    ensures { IfOk result (λ question. question ≡ with_one word.now one.now) }
{
    match word {
        "command" => Ok(command(one.as_str())),
        "account" => Ok(account(one.as_str())),
        "find" => Ok(Some(Question::Find(one.copy()?))),
        _ => Ok(None),
    }
}

/// The question for the register of an account, where the word is its number.
fn account(word: &str) -> Option<Question>
    ensures { result ≡ option_map Question.Account (number_of word.now) }
{
    match number_of(word) {
        Some(number) => Some(Question::Account(number)),
        None => None,
    }
}

/// The question for the command line of a transaction, where the word is its number.
fn command(word: &str) -> Option<Question>
    ensures { result ≡ option_map Question.Command (number_of word.now) }
{
    match number_of(word) {
        Some(number) => Some(Question::Command(number)),
        None => None,
    }
}

/// The question of a word with two more.
fn with_two(word: &str, from: &str, to: &str) -> Option<Question>
    ensures { result ≡ with_two word.now from.now to.now }
{
    if word != "journal" {
        return None;
    }
    match (day_of(from), day_of(to)) {
        (Some(from), Some(to)) => Some(Question::Journal(Some(Days { from, to }))),
        _ => None,
    }
}
