use hall_words::match_words;
use std::test::Fail;

#[test]
fn three_words_are_read(rt: HostRuntime) -> Result<(), Fail> {
    let words = ["drill", "7", "4"];
    let Ok(found) = match_words(rt.alloc(), &words) else {
        return Err(Fail::new("no memory"));
    };
    assert_eq!(rt; found.get_str("mode"), Some("drill"));
    assert_eq!(rt; found.get_str("number"), Some("7"));
    assert_eq!(rt; found.get_str("count"), Some("4"));
    Ok(())
}
