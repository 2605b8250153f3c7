use jed_format::{JedErr, read_chunk, write_chunk};
use std::alloc::Global;
use std::test::*;

const GOOD: &str = concat!(
    "{\"iv\":\"AAAAAAAAAAAAAAAAAAAAAA==\",\"v\":1,\"iter\":101,\"ks\":128,\"ts\":64,",
    "\"mode\":\"ccm\",\"adata\":\"\",\"cipher\":\"aes\",\"salt\":\"AAAAAAAAAAA=\",",
    "\"ct\":\"AAAAAAAAAAA=\"}"
);

/// The good text with one part of it replaced.
fn with(alloc: Global, part: &str, other: &str) -> Result<String, Fail> {
    let (front, back) = GOOD.split_once(part).ok_or("no such part")?;
    Ok(format!(in alloc; "{front}{other}{back}")?)
}

/// What chunk 3 of the changed text is refused for.
fn refusal(alloc: Global, part: &str, other: &str) -> Result<Option<JedErr>, Fail> {
    let text = with(alloc, part, other)?;
    Ok(read_chunk(alloc, text.as_bytes(), 3).err())
}

/// The first part of the table with which the good text is refused for something else, counted from 0.
fn first_other(
    alloc: Global,
    table: &[(&str, &str)],
    due: Option<JedErr>,
) -> Result<Option<usize>, Fail> {
    for (number, (part, other)) in table.iter().enumerate() {
        if refusal(alloc, part, other)? != due {
            return Ok(Some(number));
        }
    }
    Ok(None)
}

#[test]
fn what_is_written_is_read_back(rt: HostRuntime) -> Result<(), Fail> {
    let alloc = rt.alloc();
    let chunk = read_chunk(alloc, GOOD.as_bytes(), 1)?;
    assert_eq!(rt; write_chunk(alloc, &chunk)?.as_slice(), GOOD.as_bytes());
    Ok(())
}

/// Parts of the good text, and others that stand for a chunk as well.
const OTHER_FORMS: [(&str, &str); 11] = [
    ("\"iter\":101", "\"iter\":1"),
    ("\"iter\":101", "\"iter\":100000"),
    ("\"ks\":128", "\"ks\":192"),
    ("\"ks\":128", " \"ks\" : 256 "),
    ("\"v\":1", "\"v\":2,\"v\":1"),
    ("\"v\":1", "\"w\":[{}]"),
    ("\"adata\":\"\",\"cipher\":\"aes\",", ""),
    ("AAAAAAAAAAAAAAAAAAAAAA==", "AAAAAAAAAAAAAAAAAAAAAA"),
    ("AAAAAAAAAAAAAAAAAAAAAA==", "AAAAAAAAAA=="),
    ("\"salt\":\"AAAAAAAAAAA=\"", "\"salt\":\"\""),
    ("\"salt\":\"AAAAAAAAAAA=\"", "\"s\\u0061lt\":\"A\\u0041A=\""),
];

#[test]
fn members_may_be_in_other_forms(rt: HostRuntime) -> Result<(), Fail> {
    assert_eq!(rt; first_other(rt.alloc(), &OTHER_FORMS, None)?, None);
    Ok(())
}

const OTHER_MODES: [(&str, &str); 4] = [
    ("ccm", "ocb2"),
    ("ccm", "gcm"),
    ("ccm", "CCM"),
    ("ccm", ""),
];

#[test]
fn another_mode_is_told_apart(rt: HostRuntime) -> Result<(), Fail> {
    let due = Some(JedErr::UnsupportedMode { n: 3 });
    assert_eq!(rt; first_other(rt.alloc(), &OTHER_MODES, due)?, None);
    Ok(())
}

/// Parts of the good text, and others that make it no chunk.
const NO_CHUNKS: [(&str, &str); 27] = [
    ("\"ccm\"", "1"),
    ("\"mode\":\"ccm\",", ""),
    ("\"iter\":101", "\"iter\":0"),
    ("\"iter\":101", "\"iter\":100001"),
    ("\"iter\":101", "\"iter\":101.0"),
    ("\"iter\":101", "\"iter\":-101"),
    ("\"iter\":101", "\"iter\":18446744073709551617"),
    ("\"ks\":128", "\"ks\":129"),
    ("\"ks\":128", "\"ks\":\"128\""),
    ("\"ts\":64", "\"ts\":65"),
    ("\"ts\":64", "\"ts\":96"),
    ("\"v\":1", "\"v\":2"),
    ("\"v\":1", "\"v\":1.0"),
    ("\"v\":1", "\"v\":null"),
    ("\"aes\"", "\"AES\""),
    ("\"adata\":\"\"", "\"adata\":\"x\""),
    ("AAAAAAAAAAAAAAAAAAAAAA==", "AAAAAAAAAAAAAAAAAAAAAA="),
    ("AAAAAAAAAAAAAAAAAAAAAA==", "AAAAAAAAAAAAAAAAAAAAAB=="),
    ("AAAAAAAAAAAAAAAAAAAAAA==", "AAAAAAAAAAA\\nAAAAAAAAAAA=="),
    ("AAAAAAAAAAAAAAAAAAAAAA==", "AAAAAAAA"),
    ("AAAAAAAAAAAAAAAAAAAAAA==", "AAAAAAAAA-AAAAAAAAAAAA=="),
    ("AAAAAAAAAAAAAAAAAAAAAA==", "\\ud800"),
    ("\"ct\":\"AAAAAAAAAAA=\"", "\"ct\":\"AAAAAAAAAA==\""),
    ("\"ct\":\"AAAAAAAAAAA=\"", "\"ct\":[]"),
    ("}", ""),
    ("}", "}}"),
    ("{", "[{"),
];

#[test]
fn what_is_no_chunk_is_refused(rt: HostRuntime) -> Result<(), Fail> {
    let due = Some(JedErr::BadChunk { n: 3 });
    assert_eq!(rt; first_other(rt.alloc(), &NO_CHUNKS, due)?, None);
    Ok(())
}
