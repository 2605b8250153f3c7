use dav_address::read_address;
use std::alloc::{AllocError, Global};
use std::test::Fail;

/// Words, and the addresses of the servers that they name by the URL Standard.
const ADDRESSES: [(&str, &str); 10] = [
    ("http://localhost:8080/", "localhost:8080"),
    ("http://localhost", "localhost:80"),
    ("HTTP://Example.ORG:80/", "example.org:80"),
    ("http://127.0.0.1:0/", "127.0.0.1:0"),
    ("http://[::1]:65535/", "[::1]:65535"),
    ("http://0x7f.1/", "127.0.0.1:80"),
    ("http://b\u{fc}cher.example/", "xn--bcher-kva.example:80"),
    (" http:\\\\h:/ ", "h:80"),
    ("http:h/a/..", "h:80"),
    ("http://@h/", "h:80"),
];

/// Words that name no server.
const OTHERS: [&str; 18] = [
    "",
    "http",
    "h:80",
    "https://h/",
    "ftp://h/",
    "http:///",
    "http://h/x",
    "http://h//",
    "http://h/?",
    "http://h/?q",
    "http://h/#",
    "http://h/#f",
    "http://u@h/",
    "http://u:p@h/",
    "http://:p@h/",
    "http://h:65536/",
    "http://a b/",
    "http://h%0d%0a/",
];

fn is_address(alloc: Global, word: &str, wanted: &str) -> Result<bool, AllocError> {
    match read_address(alloc, word)? {
        Some(address) => Ok(address.as_str() == wanted),
        None => Ok(false),
    }
}

fn is_none(alloc: Global, word: &str) -> Result<bool, AllocError> {
    Ok(read_address(alloc, word)?.is_none())
}

/// How many of the words name their servers, until one doesn't.
fn count_addresses(alloc: Global) -> Result<usize, AllocError> {
    for (count, (word, wanted)) in ADDRESSES.into_iter().enumerate() {
        if !is_address(alloc, word, wanted)? {
            return Ok(count);
        }
    }
    Ok(ADDRESSES.len())
}

/// How many of the others name none, until one does.
fn count_others(alloc: Global) -> Result<usize, AllocError> {
    for (count, word) in OTHERS.into_iter().enumerate() {
        if !is_none(alloc, word)? {
            return Ok(count);
        }
    }
    Ok(OTHERS.len())
}

#[test]
fn urls_of_servers_are_addresses(rt: HostRuntime) -> Result<(), Fail> {
    assert_eq!(rt; count_addresses(rt.alloc())?, 10);
    assert_eq!(rt; count_others(rt.alloc())?, 18);
    Ok(())
}
