use crate::place::Place;
use std::test::Fail;

/// What a Joplin client may leave: a notebook, a note in it as the desktop client writes it, a tag on the
/// note, and a resource.
const FILES: [(&str, &str); 6] = [
    (
        "target/ffffffffffffffffffffffffffffffff.md",
        "Home\n\nid: ffffffffffffffffffffffffffffffff\ncreated_time: 2020-09-13T12:26:40.000Z\n\
        updated_time: 2020-09-13T12:26:40.000Z\nuser_created_time: 2020-09-13T12:26:40.000Z\n\
        user_updated_time: 2020-09-13T12:26:40.000Z\nencryption_cipher_text: \n\
        encryption_applied: 0\nparent_id: \nis_shared: 0\ntype_: 2",
    ),
    (
        "target/cccccccccccccccccccccccccccccccc.md",
        "food\n\nid: cccccccccccccccccccccccccccccccc\ncreated_time: 2020-09-13T12:26:40.000Z\n\
        updated_time: 2020-09-13T12:26:40.000Z\nuser_created_time: 2020-09-13T12:26:40.000Z\n\
        user_updated_time: 2020-09-13T12:26:40.000Z\nencryption_cipher_text: \n\
        encryption_applied: 0\nparent_id: \nis_shared: 0\ntype_: 5",
    ),
    (
        "target/eeeeeeeeeeeeeeeeeeeeeeeeeeeeeeee.md",
        "id: eeeeeeeeeeeeeeeeeeeeeeeeeeeeeeee\nnote_id: aaaaaaaaaaaaaaaaaaaaaaaaaaaaaaaa\n\
        tag_id: cccccccccccccccccccccccccccccccc\ncreated_time: 2020-09-13T12:26:40.000Z\n\
        updated_time: 2020-09-13T12:26:40.000Z\nuser_created_time: 2020-09-13T12:26:40.000Z\n\
        user_updated_time: 2020-09-13T12:26:40.000Z\nencryption_cipher_text: \n\
        encryption_applied: 0\nis_shared: 0\ntype_: 6",
    ),
    (
        "target/dddddddddddddddddddddddddddddddd.md",
        "list.txt\n\nid: dddddddddddddddddddddddddddddddd\nmime: text/plain\nfilename: list.txt\n\
        created_time: 2020-09-13T12:26:40.000Z\nupdated_time: 2020-09-13T12:26:40.000Z\n\
        user_created_time: 2020-09-13T12:26:40.000Z\nuser_updated_time: 2020-09-13T12:26:40.000Z\n\
        file_extension: txt\nencryption_cipher_text: \nencryption_applied: 0\n\
        encryption_blob_encrypted: 0\nsize: 5\nis_shared: 0\ntype_: 4",
    ),
    (
        "target/aaaaaaaaaaaaaaaaaaaaaaaaaaaaaaaa.md",
        "Shopping\n\n- milk\n- bread: two\n\nid: aaaaaaaaaaaaaaaaaaaaaaaaaaaaaaaa\n\
        parent_id: ffffffffffffffffffffffffffffffff\ncreated_time: 2020-09-13T12:26:40.000Z\n\
        updated_time: 2020-09-13T12:26:41.000Z\nis_conflict: 0\nlatitude: 0.00000000\n\
        longitude: 0.00000000\naltitude: 0.0000\nauthor: \nsource_url: \nis_todo: 0\n\
        todo_due: 0\ntodo_completed: 0\nsource: joplin-desktop\n\
        source_application: net.cozic.joplin-desktop\napplication_data: \norder: 0\n\
        user_created_time: 2020-09-13T12:26:40.000Z\nuser_updated_time: 2020-09-13T12:26:41.000Z\n\
        encryption_cipher_text: \nencryption_applied: 0\nmarkup_language: 1\nis_shared: 0\n\
        type_: 1",
    ),
    ("target/.resource/dddddddddddddddddddddddddddddddd", "hello"),
];

/// The target is another program's work, but for its version.
const SET_UP: &str = "other|upgrade dir:||0|version 3~\n";

/// An empty profile reads all of it, once.
const FIRST: &str = "\
one|sync dir:||0|put 0~removed 0~taken 5~gone 0~conflicts 0~bad 0~locked 0~
one|ls||0|ffffffffffffffffffffffffffffffff Home~
one|ls ffffffffffffffffffffffffffffffff||0|aaaaaaaaaaaaaaaaaaaaaaaaaaaaaaaa Shopping~
one|sync dir:||0|put 0~removed 0~taken 0~gone 0~conflicts 0~bad 0~locked 0~
";

fn fill(place: &Place) -> Result<(), Fail> {
    for (name, text) in FILES {
        place.write(name, text)?;
    }
    Ok(())
}

fn comes_out(place: &Place) -> Result<bool, Fail> {
    if place.first_surprise(SET_UP)?.is_some() {
        return Ok(false);
    }
    fill(place)?;
    Ok(place.first_surprise(FIRST)?.is_none())
}

fn has_come_out(rt: &HostRuntime) -> Result<bool, Fail> {
    let place = Place::new(rt, "first")?;
    let comes_out = comes_out(&place)?;
    place.remove()?;
    Ok(comes_out)
}

#[test]
fn an_empty_profile_reads_what_a_joplin_client_left(rt: HostRuntime) -> Result<(), Fail> {
    assert!(rt; has_come_out(&rt)?);
    Ok(())
}
