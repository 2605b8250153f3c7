//! Infos, their texts, and merges.

ghost use Rattle.sync_info.specs.Info.{IsInfo};

use jop_base::{Bytes, Copied};
use std::alloc::{AllocError, Global};
use std::test::Fail;
use sync_info::{BadInfo, Info, InfoErr, merge, read_info, write_info};

/// Texts of infos, one a line.
const READ: &str = r#"{"version":3}
 { "version" : 3 } 
{"version":0}
{"version":18446744073709551615}
{"activeMasterKeyId":{"updatedTime":0,"value":""},"e2ee":{"updatedTime":0,"value":false},"masterKeys":[],"version":3}
{"version":3,"e2ee":{"value":true,"updatedTime":1}}
{"version":3,"e2ee":{"value":true,"updatedTime":1,"other":[]}}
{"version":3,"e2ee":{"value":false,"updatedTime":253402300799999}}
{"version":3,"activeMasterKeyId":{"value":"","updatedTime":7}}
{"version":3,"activeMasterKeyId":{"value":"aaaaaaaaaaaaaaaaaaaaaaaaaaaaaaaa","updatedTime":7,"other":null}}
{"version":3,"masterKeys":[]}
{"version":3,"masterKeys":[{"id":"aaaaaaaaaaaaaaaaaaaaaaaaaaaaaaaa","content":""}]}
{"version":3,"masterKeys":[{"id":"aaaaaaaaaaaaaaaaaaaaaaaaaaaaaaaa","content":"x","updated_time":253402300799999}]}
{"version":3,"masterKeys":[{"id":"aaaaaaaaaaaaaaaaaaaaaaaaaaaaaaaa","content":"x","created_time":-1,"other":{"id":1}}]}
{"version":3,"other":null}
{"version":3,"other":-9223372036854775808}
{"version":3,"other":[true,{"x":"\u00e9\n"},""]}
{"version":3,"other":"1.5"}
{"version":1,"version":3}
{"version":1.5,"version":3}
{"version":3,"":0,"\u0000":0}"#;

/// The text of an info with two keys.
const TWO_KEYS: &str = concat!(
    r#"{"version":3,"masterKeys":[{"id":"aaaaaaaaaaaaaaaaaaaaaaaaaaaaaaaa","content":"x"},"#,
    r#"{"id":"bbbbbbbbbbbbbbbbbbbbbbbbbbbbbbbb","content":"x"}]}"#
);

/// A text that is none, since both keys have one id.
const ONE_ID_TWICE: &str = concat!(
    r#"{"version":3,"masterKeys":[{"id":"aaaaaaaaaaaaaaaaaaaaaaaaaaaaaaaa","content":"x"},"#,
    r#"{"id":"aaaaaaaaaaaaaaaaaaaaaaaaaaaaaaaa","content":"y"}]}"#
);

/// Texts that are none, one a line.
const REFUSED: &str = r#"
null
3
"version"
[]
[{"version":3}]
{}
{"version":3
{"version":3}}
{"version":3,}
{'version':3}
{"version":03}
{"version":-1}
{"version":-0}
{"version":3.0}
{"version":3e0}
{"version":"3"}
{"version":null}
{"version":18446744073709551616}
{"Version":3}
{"version":3,"version":null}
{"version":3,"other":1.5}
{"version":3,"other":[{"x":[1e5]}]}
{"version":3,"other":-0}
{"version":3,"other":-9223372036854775809}
{"version":3,"other":1e999}
{"version":3,"other":123456789012345678901234567890123456789012345678901234567890}
{"version":3,"other":"\ud800"}
{"version":3,"e2ee":null}
{"version":3,"e2ee":true}
{"version":3,"e2ee":{"value":true}}
{"version":3,"e2ee":{"updatedTime":1}}
{"version":3,"e2ee":{"value":1,"updatedTime":1}}
{"version":3,"e2ee":{"value":true,"updatedTime":-1}}
{"version":3,"e2ee":{"value":true,"updatedTime":1.5}}
{"version":3,"e2ee":{"value":true,"updatedTime":253402300800000}}
{"version":3,"e2ee":{"value":true,"updatedTime":1,"other":0.5}}
{"version":3,"activeMasterKeyId":null}
{"version":3,"activeMasterKeyId":{"value":null,"updatedTime":1}}
{"version":3,"activeMasterKeyId":{"value":"none","updatedTime":1}}
{"version":3,"activeMasterKeyId":{"value":"AAAAAAAAAAAAAAAAAAAAAAAAAAAAAAAA","updatedTime":1}}
{"version":3,"activeMasterKeyId":{"value":"aaaaaaaaaaaaaaaaaaaaaaaaaaaaaaaa","updatedTime":253402300800000}}
{"version":3,"masterKeys":null}
{"version":3,"masterKeys":{}}
{"version":3,"masterKeys":[null]}
{"version":3,"masterKeys":[{}]}
{"version":3,"masterKeys":[{"id":"aaaaaaaaaaaaaaaaaaaaaaaaaaaaaaaa"}]}
{"version":3,"masterKeys":[{"content":"x"}]}
{"version":3,"masterKeys":[{"id":"","content":"x"}]}
{"version":3,"masterKeys":[{"id":"aaaaaaaaaaaaaaaaaaaaaaaaaaaaaaa","content":"x"}]}
{"version":3,"masterKeys":[{"id":"gggggggggggggggggggggggggggggggg","content":"x"}]}
{"version":3,"masterKeys":[{"id":"aaaaaaaaaaaaaaaaaaaaaaaaaaaaaaaa","content":1}]}
{"version":3,"masterKeys":[{"id":"aaaaaaaaaaaaaaaaaaaaaaaaaaaaaaaa","content":"x","updated_time":null}]}
{"version":3,"masterKeys":[{"id":"aaaaaaaaaaaaaaaaaaaaaaaaaaaaaaaa","content":"x","updated_time":-1}]}
{"version":3,"masterKeys":[{"id":"aaaaaaaaaaaaaaaaaaaaaaaaaaaaaaaa","content":"x","updated_time":253402300800000}]}
{"version":3,"masterKeys":[{"id":"aaaaaaaaaaaaaaaaaaaaaaaaaaaaaaaa","content":"x","other":1.5}]}"#;

/// An info as Joplin's desktop client writes it, and the same compact, with sorted names.
const JOPLIN: &str = r#"{
  "version": 3,
  "ppk": {
    "value": {
      "id": "BIO3FFd2nwTLZzcTrr6Mrk",
      "keySize": 2048,
      "privateKey": {"encryptionMethod": 4, "ciphertext": "{\"iv\":\"a/b\"}"},
      "createdTime": 1651058221212
    },
    "updatedTime": 1651058221212
  },
  "masterKeys": [
    {
      "source_application": "net.cozic.joplin-desktop",
      "id": "aaaaaaaaaaaaaaaaaaaaaaaaaaaaaaaa",
      "hasBeenUsed": true,
      "encryption_method": 4,
      "enabled": 1,
      "content": "{\"ct\":\"x\"}",
      "created_time": 1651058221212,
      "checksum": "",
      "updated_time": 1651058221213
    }
  ],
  "e2ee": {"value": true, "updatedTime": 1651058221214},
  "appMinVersion": "3.0.0",
  "activeMasterKeyId": {"value": "aaaaaaaaaaaaaaaaaaaaaaaaaaaaaaaa", "updatedTime": 1651058221215}
}"#;

const JOPLIN_COMPACT: &str = concat!(
    r#"{"activeMasterKeyId":{"updatedTime":1651058221215,"value":"aaaaaaaaaaaaaaaaaaaaaaaaaaaaaaaa"},"#,
    r#""appMinVersion":"3.0.0","e2ee":{"updatedTime":1651058221214,"value":true},"#,
    r#""masterKeys":[{"checksum":"","content":"{\"ct\":\"x\"}","created_time":1651058221212,"#,
    r#""enabled":1,"encryption_method":4,"hasBeenUsed":true,"id":"aaaaaaaaaaaaaaaaaaaaaaaaaaaaaaaa","#,
    r#""source_application":"net.cozic.joplin-desktop","updated_time":1651058221213}],"#,
    r#""ppk":{"updatedTime":1651058221212,"value":{"createdTime":1651058221212,"#,
    r#""id":"BIO3FFd2nwTLZzcTrr6Mrk","keySize":2048,"#,
    r#""privateKey":{"ciphertext":"{\"iv\":\"a/b\"}","encryptionMethod":4}}},"version":3}"#
);

const NEW: &str = concat!(
    r#"{"activeMasterKeyId":{"updatedTime":0,"value":""},"e2ee":{"updatedTime":0,"value":false},"#,
    r#""masterKeys":[],"version":3}"#
);

fn is_refused(alloc: Global, text: &[u8]) -> bool {
    matches!(read_info(alloc, text), Err(InfoErr::Bad(BadInfo)))
}

fn is_read(alloc: Global, text: &[u8]) -> bool {
    read_info(alloc, text).is_ok()
}

#[test]
fn reads_infos(rt: HostRuntime) {
    for text in READ.lines() {
        assert!(rt; is_read(rt.alloc(), text.as_bytes()), "{text}");
    }
    assert!(rt; is_read(rt.alloc(), TWO_KEYS.as_bytes()));
}

#[test]
fn refuses_what_is_none(rt: HostRuntime) {
    for text in REFUSED.lines() {
        assert!(rt; is_refused(rt.alloc(), text.as_bytes()), "{text}");
    }
    assert!(rt; is_refused(rt.alloc(), ONE_ID_TWICE.as_bytes()));
}

/// An info with a member of lists in one another.
fn nested(alloc: Global, depth: usize) -> Result<String, AllocError> {
    let mut text = String::from_str(alloc, "{\"version\":3,\"other\":")?;
    for _ in 0..depth {
        text.push('[')?;
    }
    for _ in 0..depth {
        text.push(']')?;
    }
    text.push('}')?;
    Ok(text)
}

fn is_refused_at(alloc: Global, depth: usize) -> Result<bool, AllocError> {
    Ok(is_refused(alloc, nested(alloc, depth)?.as_bytes()))
}

/// Whether a text of so many opening brackets is refused.
fn are_refused(alloc: Global, count: usize) -> Result<bool, AllocError> {
    let brackets = vec![in alloc; b'['; count]?;
    Ok(is_refused(alloc, brackets.as_slice()))
}

#[test]
fn refuses_hostile_texts(rt: HostRuntime) -> Result<(), Fail> {
    let alloc = rt.alloc();
    assert!(rt; is_refused(alloc, b"{\"version\":3,\"other\":\"\xff\"}"));
    assert!(rt; is_refused(alloc, "\u{feff}{\"version\":3}".as_bytes()));
    for (depth, refused) in [(126, false), (127, true), (200, true)] {
        assert_eq!(rt; is_refused_at(alloc, depth)?, refused);
    }
    assert!(rt; are_refused(alloc, 16 << 20)?);
    Ok(())
}

fn written(alloc: Global, text: &str) -> Result<Bytes, InfoErr> {
    let info = read_info(alloc, text.as_bytes())?;
    Ok(write_info(alloc, &info)?)
}

fn is_written(alloc: Global, text: &str, wanted: &str) -> Result<bool, InfoErr> {
    Ok(written(alloc, text)?.as_slice() == wanted.as_bytes())
}

#[test]
fn keeps_other_members(rt: HostRuntime) -> Result<(), Fail> {
    assert!(rt; is_written(rt.alloc(), JOPLIN, JOPLIN_COMPACT)?);
    assert!(rt; is_written(rt.alloc(), JOPLIN_COMPACT, JOPLIN_COMPACT)?);
    Ok(())
}

fn new_text(alloc: Global) -> Result<Bytes, AllocError> {
    write_info(alloc, &Info::new(alloc, 3))
}

#[test]
fn writes_a_new_target(rt: HostRuntime) -> Result<(), Fail> {
    let text = new_text(rt.alloc())?;
    assert!(rt; text.as_slice() == NEW.as_bytes());
    Ok(())
}

/// A local info, a remote one, and what they become.
const MERGES: [(&str, &str, &str); 3] = [
    (
        r#"{"version":3,"e2ee":{"updatedTime":5,"value":true},
            "activeMasterKeyId":{"updatedTime":9,"value":"aaaaaaaaaaaaaaaaaaaaaaaaaaaaaaaa"}}"#,
        r#"{"version":3,"e2ee":{"updatedTime":5,"value":false}}"#,
        r#"{"version":3,"e2ee":{"updatedTime":5,"value":false},
            "activeMasterKeyId":{"updatedTime":9,"value":"aaaaaaaaaaaaaaaaaaaaaaaaaaaaaaaa"}}"#,
    ),
    (
        r#"{"version":2,"e2ee":{"updatedTime":6,"value":true},"x":1,
            "activeMasterKeyId":{"updatedTime":1,"value":""}}"#,
        r#"{"version":3,"e2ee":{"updatedTime":5,"value":false},"y":2,
            "activeMasterKeyId":{"updatedTime":1,"value":"bbbbbbbbbbbbbbbbbbbbbbbbbbbbbbbb"}}"#,
        r#"{"version":3,"e2ee":{"updatedTime":6,"value":true},"y":2,
            "activeMasterKeyId":{"updatedTime":1,"value":"bbbbbbbbbbbbbbbbbbbbbbbbbbbbbbbb"}}"#,
    ),
    (
        r#"{"version":3,"masterKeys":[
            {"content":"la","id":"aaaaaaaaaaaaaaaaaaaaaaaaaaaaaaaa","updated_time":5},
            {"content":"lc","id":"cccccccccccccccccccccccccccccccc","updated_time":4},
            {"content":"lb","id":"bbbbbbbbbbbbbbbbbbbbbbbbbbbbbbbb","updated_time":6}]}"#,
        r#"{"version":3,"masterKeys":[
            {"content":"rb","id":"bbbbbbbbbbbbbbbbbbbbbbbbbbbbbbbb","updated_time":5},
            {"content":"ra","id":"aaaaaaaaaaaaaaaaaaaaaaaaaaaaaaaa","updated_time":5}]}"#,
        r#"{"version":3,"masterKeys":[
            {"content":"lb","id":"bbbbbbbbbbbbbbbbbbbbbbbbbbbbbbbb","updated_time":6},
            {"content":"ra","id":"aaaaaaaaaaaaaaaaaaaaaaaaaaaaaaaa","updated_time":5},
            {"content":"lc","id":"cccccccccccccccccccccccccccccccc","updated_time":4}]}"#,
    ),
];

fn copied_text(alloc: Global, info: &Info) -> Result<Bytes, AllocError>
    requires { IsInfo info.now }
{
    let copy = info.copy(alloc)?;
    write_info(alloc, &copy)
}

fn merged_text(alloc: Global, local: &Info, remote: &Info) -> Result<Bytes, AllocError>
    requires local { IsInfo local.now }
    requires remote { IsInfo remote.now }
{
    let info = merge(alloc, local, remote)?;
    copied_text(alloc, &info)
}

fn merged(alloc: Global, local: &str, remote: &str) -> Result<Bytes, InfoErr> {
    let local = read_info(alloc, local.as_bytes())?;
    let remote = read_info(alloc, remote.as_bytes())?;
    Ok(merged_text(alloc, &local, &remote)?)
}

fn is_merged(alloc: Global, local: &str, remote: &str, both: &str) -> Result<bool, InfoErr> {
    let text = merged(alloc, local, remote)?;
    Ok(text.as_slice() == written(alloc, both)?.as_slice())
}

#[test]
fn merges_settings_and_keys(rt: HostRuntime) -> Result<(), Fail> {
    for (local, remote, both) in MERGES {
        assert!(rt; is_merged(rt.alloc(), local, remote, both)?);
    }
    Ok(())
}
