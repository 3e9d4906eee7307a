use book_commodity::{OutOfMemory, Text};
use book_words::part;
use std::alloc::Global;
use std::test::Fail;

/// Whether the words are parted.
fn is_parted(alloc: Global, words: &[&str]) -> Result<bool, OutOfMemory> {
    let mut texts = Vec::new(alloc);
    for word in words {
        texts.push(Text::of(String::from_str(alloc, word)?))?;
    }
    Ok(part(alloc, texts.as_slice()).is_ok())
}

// Words that are none of the program's. The program asks its own grammar first, so that they never come here.
#[test]
fn other_words_are_not_parted(rt: HostRuntime) -> Result<(), Fail> {
    let rows: [&[&str]; 14] = [
        &[],
        &["run"],
        &["sample"],
        &["walk", "a.book"],
        &["run", "-a.book"],
        &["sample", "-7"],
        &["run", "a.book", "b.book"],
        &["import"],
        &["import", "a.book", "mt940", "0"],
        &["import", "a.book", "mt940", "0", "-1"],
        &["import", "a.book", "mt940", "0", "0", "0"],
        &["serve", "a.book", "1"],
        &["serve", "a.book", "-1", "1"],
        &["serve", "a.book", "1", "1", "1"],
    ];
    for words in rows {
        assert!(rt; !is_parted(rt.alloc(), words)?);
    }
    Ok(())
}
