use crate::due::{comes_out, cut};
use crate::machine::{Client, client_at};
use jop_base::{Bytes, Id, Path};
use jop_outside::MemEntropy;
use jop_target::MemTarget;
use keeper_records::MemKeeper;
use std::alloc::{AllocError, Global};
use std::test::Fail;

/// Two clients and their target.
struct Two {
    one: Client<MemKeeper>,
    two: Client<MemKeeper>,
    target: MemTarget,
}

// Written out, as that of a client is.
impl Drop for Two {
    fn drop(self) {
        let Two {
            one: _,
            two: _,
            target: _,
        } = self;
    }
}

/// A line a command: whose it is, and what is to become of it. The first client's first 16 random bytes
/// become its id, the next ones that of the notebook, and then that of the note.
const DAY: &str = "\
1|upgrade mem:||0|version 3~
1|mkbook Home||0|101112131415161718191a1b1c1d1e1f~
1|add 101112131415161718191a1b1c1d1e1f Milk|one|0|202122232425262728292a2b2c2d2e2f~
1|sync mem:||0|put 2~removed 0~taken 0~gone 0~conflicts 0~bad 0~locked 0~
2|sync mem:||0|put 0~removed 0~taken 2~gone 0~conflicts 0~bad 0~locked 0~
2|ls 101112131415161718191a1b1c1d1e1f||0|202122232425262728292a2b2c2d2e2f Milk~
1|edit 202122232425262728292a2b2c2d2e2f|two|0|
2|edit 202122232425262728292a2b2c2d2e2f --title Oats|three|0|
1|sync mem:||0|put 1~removed 0~taken 0~gone 0~conflicts 0~bad 0~locked 0~
2|sync mem:||0|put 0~removed 0~taken 0~gone 0~conflicts 1~bad 0~locked 0~
2|ls 101112131415161718191a1b1c1d1e1f||0|202122232425262728292a2b2c2d2e2f Milk~
2|conflicts||0|1 202122232425262728292a2b2c2d2e2f Oats~
2|rm 202122232425262728292a2b2c2d2e2f||0|
2|sync mem:||0|put 0~removed 1~taken 0~gone 0~conflicts 0~bad 0~locked 0~
1|sync mem:||0|put 0~removed 0~taken 0~gone 1~conflicts 0~bad 0~locked 0~
";

/// A target that was never upgraded, and one that lost all its items.
const REFUSALS: &str = "\
1|sync mem:||5|target version 0 is older than 3~
1|upgrade mem:||0|version 3~
1|sync mem:||8|no items on the target, 1 kept here~
";

/// A file that is no item's is passed by.
const BAD: &str = "\
1|upgrade mem:||0|version 3~
1|sync mem:||0|bad aaaaaaaaaaaaaaaaaaaaaaaaaaaaaaaa~put 0~removed 0~taken 0~gone 0~conflicts 0~bad 1~locked 0~
1|ls||0|
";

/// A client whose id is another than the first one's. It draws no other id.
fn second(alloc: Global) -> Result<Client<MemKeeper>, AllocError> {
    let entropy = MemEntropy::new(alloc, Bytes::from_vec([255; 16].to_vec(alloc)?));
    Ok(Client::new(alloc, MemKeeper::new(alloc), 9, entropy))
}

impl Two {
    fn new(alloc: Global) -> Result<Two, AllocError> {
        let one = client_at(alloc, 5)?;
        let two = second(alloc)?;
        let target = MemTarget::new(alloc, 0, 1);
        Ok(Two { one, two, target })
    }

    /// Whether the command comes out as it is to.
    fn comes_out(&mut self, alloc: Global, line: &str) -> Result<bool, AllocError> {
        let (number, rest) = cut(line);
        if number == "1" {
            comes_out(&mut self.one, alloc, &mut self.target, rest)
        } else {
            comes_out(&mut self.two, alloc, &mut self.target, rest)
        }
    }

    /// The first of these lines that comes out otherwise, counted from 0.
    fn first_surprise(&mut self, alloc: Global, lines: &str) -> Result<Option<usize>, AllocError> {
        for (number, line) in lines.lines().enumerate() {
            if !self.comes_out(alloc, line)? {
                return Ok(Some(number));
            }
        }
        Ok(None)
    }

    /// Whether the second client's first conflict note holds what it wrote last.
    fn has_put_aside(&self) -> bool {
        match self.two.keeper.tables().conflicts.as_slice().first() {
            Some(note) => note.item.body.as_str() == "three",
            None => false,
        }
    }

    /// The target is another one, with no files.
    fn lose_target(&mut self, alloc: Global) {
        self.target = MemTarget::new(alloc, 0, 1);
    }

    /// Someone puts a file that is no item's.
    fn place_a_bad_file(&mut self, alloc: Global) -> Result<(), Fail> {
        let id = Id::read(b"aaaaaaaaaaaaaaaaaaaaaaaaaaaaaaaa").ok_or("an id")?;
        let bytes = Bytes::from_vec(b"hello".to_vec(alloc)?);
        self.target.place(Path::Item(id), bytes, 3)?;
        Ok(())
    }

    fn has_a_day(&mut self, alloc: Global) -> Result<bool, AllocError> {
        let surprise = self.first_surprise(alloc, DAY)?;
        Ok(surprise.is_none() && self.has_put_aside())
    }

    fn is_refused_then(&mut self, alloc: Global) -> Result<bool, AllocError> {
        let day = self.has_a_day(alloc)?;
        self.lose_target(alloc);
        Ok(day && self.first_surprise(alloc, REFUSALS)?.is_none())
    }

    fn passes_by_a_bad_file(&mut self, alloc: Global) -> Result<bool, Fail> {
        self.place_a_bad_file(alloc)?;
        Ok(self.first_surprise(alloc, BAD)?.is_none())
    }
}

fn day_and_refusals(alloc: Global) -> Result<bool, AllocError> {
    let mut two = Two::new(alloc)?;
    two.is_refused_then(alloc)
}

fn bad_file(alloc: Global) -> Result<bool, Fail> {
    let mut two = Two::new(alloc)?;
    two.passes_by_a_bad_file(alloc)
}

/// Both change one note: the one that syncs last finds its own text among the conflict notes.
#[test]
fn two_clients_have_a_day(rt: HostRuntime) -> Result<(), Fail> {
    assert!(rt; day_and_refusals(rt.alloc())?);
    Ok(())
}

#[test]
fn a_file_that_is_no_items_is_named(rt: HostRuntime) -> Result<(), Fail> {
    assert!(rt; bad_file(rt.alloc())?);
    Ok(())
}
