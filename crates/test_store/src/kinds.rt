//! What the pairs of an item say.

ghost use Rattle.std.specs.Prelude.{◌≤◌};
ghost use Rattle.jop_base.specs.Times.{last_time};

use item_kinds::{Kind, id_of, is_sealed, kind_of, read_time, updated_of, write_time};
use item_text::{Item, read_item};
use jop_base::MAX_TIME;
use std::alloc::{AllocError, Global};
use std::test::*;

/// Times and how they are written.
const TIMES: [(u64, &str); 4] = [
    (0, "1970-01-01T00:00:00.000Z"),
    (951_782_400_000, "2000-02-29T00:00:00.000Z"),
    (1_600_000_000_000, "2020-09-13T12:26:40.000Z"),
    (MAX_TIME, "9999-12-31T23:59:59.999Z"),
];

fn is_written(alloc: Global, time: u64, text: &str) -> Result<bool, AllocError>
    requires { time ≤ last_time }
{
    Ok(write_time(alloc, time)?.as_str() == text)
}

#[test]
fn times_are_written_and_read(rt: HostRuntime) -> Result<(), Fail> {
    for (time, text) in TIMES {
        assert!(rt; time <= MAX_TIME);
        assert!(rt; is_written(rt.alloc(), time, text)?);
        assert!(rt; read_time(text.as_bytes()) == Some(time));
    }
    Ok(())
}

/// Texts, and the times that they are, if they are any.
const READ: [(&str, Option<u64>); 14] = [
    ("000000000000007", Some(7)),
    ("253402300799999", Some(MAX_TIME)),
    ("", None),
    ("+5", None),
    ("253402300800000", None),
    ("0000000000000007", None),
    ("2020-02-30T00:00:00.000Z", None),
    ("2100-02-29T00:00:00.000Z", None),
    ("1969-12-31T23:59:59.999Z", None),
    ("2020-01-01T23:59:60.000Z", None),
    ("2020-01-01T24:00:00.000Z", None),
    ("2020-01-01 00:00:00.000Z", None),
    ("2020-01-01T00:00:00.000z", None),
    ("2020-01-01T00:00:00Z", None),
];

#[test]
fn what_is_no_time_is_refused(rt: HostRuntime) {
    for (text, time) in READ {
        assert!(rt; read_time(text.as_bytes()) == time, "{text}");
    }
}

/// Whether an item is of kind 7, sealed, and without an id and a time.
fn is_other(item: &Item) -> bool {
    kind_of(item) == Some(Kind(7))
        && id_of(item).is_none()
        && updated_of(item) == 0
        && is_sealed(item)
}

#[test]
fn other_kinds_and_bad_values_are_read(rt: HostRuntime) -> Result<(), Fail> {
    let text = "id: A\nupdated_time: soon\nencryption_applied: 1\ntype_: 007";
    let item = read_item(rt.alloc(), text.as_bytes())?;
    assert!(rt; is_other(&item));
    Ok(())
}
