use crate::names::{ONES, id};
use crate::texts::bytes_of;
use jop_base::{Context, Copied, MAX_TIME};
use jop_outside::{Clock, Draw, Entropy, Failed, MemClock, MemEntropy};
use std::alloc::{AllocError, Global};
use std::test::Fail;

/// Whether a clock shows these moments one after the other.
fn shows(clock: &mut MemClock, moments: &[Result<u64, Failed>]) -> bool {
    for moment in moments {
        if clock.now() != *moment {
            return false;
        }
    }
    true
}

/// Whether a clock that fails once, at its second call, goes on by itself up to the last moment.
fn goes_on(clock: &mut MemClock) -> Result<bool, AllocError> {
    clock.fail(2)?;
    let moments = [
        Ok(MAX_TIME - 15),
        Err(Failed),
        Ok(MAX_TIME - 5),
        Ok(MAX_TIME),
        Ok(MAX_TIME),
    ];
    Ok(shows(clock, &moments) && clock.faults() == 1)
}

#[test]
fn a_clock_goes_on_by_itself(rt: HostRuntime) -> Result<(), Fail> {
    let mut clock = MemClock::new(rt.alloc(), MAX_TIME - 15, 10);
    assert!(rt; goes_on(&mut clock)?);
    Ok(())
}

/// What a call for two random bytes is answered, what it makes of two dashes, and what is left.
#[derive(Clone, Copy)]
struct Filling {
    answer: Result<(), Failed>,
    given: [u8; 2],
    left: &'static [u8],
}

/// Two calls fail: one that is planned, and one for more bytes than are left.
const FILLINGS: [Filling; 4] = [
    Filling {
        answer: Ok(()),
        given: *b"ab",
        left: b"cde",
    },
    Filling {
        answer: Err(Failed),
        given: *b"--",
        left: b"cde",
    },
    Filling {
        answer: Ok(()),
        given: *b"cd",
        left: b"e",
    },
    Filling {
        answer: Err(Failed),
        given: *b"--",
        left: b"e",
    },
];

fn two_of(entropy: &mut MemEntropy) -> (Result<(), Failed>, [u8; 2]) {
    let mut into = [b'-'; 2];
    let answer = entropy.fill(&mut into);
    (answer, into)
}

fn leaves(entropy: &MemEntropy, left: &[u8]) -> bool {
    entropy.left() == left
}

fn fills(entropy: &mut MemEntropy, filling: &Filling) -> bool {
    let (answer, given) = two_of(entropy);
    answer == filling.answer && given == filling.given && leaves(entropy, filling.left)
}

fn fills_in_turn(entropy: &mut MemEntropy, fillings: &[Filling]) -> bool {
    for filling in fillings {
        if !fills(entropy, filling) {
            return false;
        }
    }
    true
}

fn runs_out(entropy: &mut MemEntropy) -> Result<bool, AllocError> {
    entropy.fail(2)?;
    Ok(fills_in_turn(entropy, &FILLINGS) && entropy.faults() == 2)
}

#[test]
fn random_bytes_are_given_until_they_run_out(rt: HostRuntime) -> Result<(), Fail> {
    let mut entropy = MemEntropy::new(rt.alloc(), bytes_of(rt.alloc(), b"abcde")?);
    assert!(rt; runs_out(&mut entropy)?);
    Ok(())
}

#[test]
fn numbers_are_drawn_by_the_stated_generator(rt: HostRuntime) -> Result<(), Fail> {
    let table = [
        (0, [167_951_807, 218_396_424, 1_299_921_937]),
        (1, [908_834_774, 1_093_944_153, 1_392_341_196]),
    ];
    for (state, numbers) in table {
        let mut draw = Draw { state };
        assert_eq!(rt; [draw.next(), draw.next(), draw.next()], numbers);
    }
    Ok(())
}

#[test]
fn a_context_is_copied(rt: HostRuntime) -> Result<(), Fail> {
    let mut context = Context::new(rt.alloc());
    context.moment = 7;
    context.seen.push(id(ONES)?)?;
    let copy = context.copy(rt.alloc())?;
    assert!(rt; copy == context);
    assert_eq!(rt; copy.seen.len(), 1);
    Ok(())
}
