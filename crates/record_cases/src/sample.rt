use book_sample::sample_lines;
use std::test::Fail;

/// The line at this place of the sample of a number.
fn line_at(text: &str, place: usize) -> &str {
    text.split('\n').nth(place).unwrap_or("")
}

#[test]
fn the_lines_of_a_sample_are_these(rt: HostRuntime) -> Result<(), Fail> {
    let text = sample_lines(rt.alloc(), 7)?;
    let text = text.as_str();
    assert_eq!(rt; text.split('\n').count(), 23_011);
    assert_eq!(rt;
        line_at(text, 0),
        "{\"do\":\"account_add\",\"name\":\"A0\",\"kind\":\"BANK\",\"commodity\":1,\"parent\":2}"
    );
    assert_eq!(rt;
        line_at(text, 8),
        concat!(
            r#"{"do":"post","day":"2022-02-14","currency":1,"#,
            r#""splits":[{"account":9,"value":60991},{"account":10,"value":-60991}]}"#
        )
    );
    assert_eq!(rt; line_at(text, 18), "{\"do\":\"undo\"}");
    assert_eq!(rt; line_at(text, 29), "{\"do\":\"undo\"}");
    assert_eq!(rt; line_at(text, 30), "{\"do\":\"redo\"}");
    assert_eq!(rt;
        line_at(text, 23_009),
        "{\"do\":\"trial\",\"day\":\"2023-12-31\"}"
    );
    assert_eq!(rt; line_at(text, 23_010), "");
    Ok(())
}
