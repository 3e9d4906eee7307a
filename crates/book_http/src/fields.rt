ghost use Rattle.std.specs.Prelude.{◌≡◌, ◌∷◌, ◌++◌, ℕ, List, [], All, length, map, codes, if◌then◌else◌};
ghost use Rattle.std.specs.Char.{is_ascii_digit};
ghost use Rattle.std.specs.List.{list_all};
ghost use Rattle.httparse.specs.Spans.{IsHeaderWithin, header_bytes};
ghost use Rattle.book_http.specs.Fields.{besides, is_close, is_length, one_length, said, same_word};

use httparse::spans::HeaderSpan;

/// The length of a body, as the fields of a head say it.
#[derive(Clone, Copy, Debug, PartialEq, Eq)]
pub enum BodyLength {
    /// No field says it.
    Absent,
    /// One field says it, with 1 to 18 digits.
    Given(u64),
    /// A field says it in another form, or more than one field does.
    Broken,
}

/// What the fields of a head say.
#[derive(Clone, Copy, Debug, PartialEq, Eq)]
pub struct Fields {
    /// The body is encoded: a field Transfer-Encoding stands.
    pub encoded: bool,
    /// The length of the body.
    pub length: BodyLength,
    /// The sender asks that the link be closed.
    pub close: bool,
}

/// Whether two words are the same but for the case of A to Z.
fn same_word(one: &[u8], other: &[u8]) -> bool
    ensures { result ≡ same_word one.now other.now }
{
    one.eq_ignore_ascii_case(other)
}

/// Whether each byte is a decimal digit.
fn are_digits(value: &[u8]) -> bool
    ensures { result ≡ list_all is_ascii_digit value.now }
{
    value.iter().all(|byte| byte.is_ascii_digit())
}

/// Whether a value is a length: 1 to 18 digits.
fn is_length(value: &[u8]) -> bool
    ensures { result ≡ is_length value.now }
{
    !value.is_empty() && value.len() <= 18 && are_digits(value)
}

/// The length that one value gives.
fn one_length(value: &[u8]) -> BodyLength
    ensures { result ≡ one_length value.now }
{
    if !is_length(value) {
        return BodyLength::Broken;
    }
    let Ok(text) = str::from_utf8(value) else {
        unreachable!()
    };
    match text.parse::<u64>() {
        Ok(size) => BodyLength::Given(size),
        Err(_) => unreachable!(),
    }
}

/// The length where this value stands besides those that gave it.
fn besides(length: BodyLength, value: &[u8]) -> BodyLength
    ensures { result ≡ besides length value.now }
{
    match length {
        BodyLength::Absent => one_length(value),
        _ => BodyLength::Broken,
    }
}

/// The length after one more field.
fn next_length(length: BodyLength, name: &[u8], value: &[u8]) -> BodyLength
    ensures { result ≡ (if same_word name.now (codes "content-length") then besides length value.now else length) }
{
    if same_word(name, b"content-length") {
        besides(length, value)
    } else {
        length
    }
}

/// Whether a field says that the body is encoded.
fn is_encoding(name: &[u8]) -> bool
    ensures { result ≡ same_word name.now (codes "transfer-encoding") }
{
    same_word(name, b"transfer-encoding")
}

/// Whether a field asks that the link be closed.
fn is_close(name: &[u8], value: &[u8]) -> bool
    ensures { result ≡ is_close name.now value.now }
{
    same_word(name, b"connection") && same_word(value, b"close")
}

impl Fields {
    /// What no fields say.
    fn none() -> Fields
        ensures { result ≡ said [] }
    {
        Fields {
            encoded: false,
            length: BodyLength::Absent,
            close: false,
        }
    }

    /// What these fields and one more say.
    fn with(self, name: &[u8], value: &[u8]) -> Fields
        ensures { (seen : List (List ℕ × List ℕ)) → self ≡ said seen
            → result ≡ said (seen ++ (name.now, value.now) ∷ []) }
    {
        let encoding = is_encoding(name);
        let length = next_length(self.length, name, value);
        let close = is_close(name, value);
        Fields {
            encoded: self.encoded | encoding,
            length,
            close: self.close | close,
        }
    }
}

/// What the fields say whose names and values stand here in the head.
pub fn read_fields(head: &[u8], fields: &[HeaderSpan]) -> Fields
    requires { All (IsHeaderWithin (length head.now)) fields.now }
    ensures { result ≡ said (map (header_bytes head.now) fields.now) }
{
    let mut said = Fields::none();
    for field in fields {
        said = said.with(field.name.of(head), field.value.of(head));
    }
    said
}
