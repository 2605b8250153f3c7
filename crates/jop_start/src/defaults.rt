ghost use Rattle.std.specs.Prelude.{◌≡◌, ◌∷◌, ◌++◌, [], IfOk, OnOk, codes};
ghost use Rattle.jop_start.specs.Defaults.{begun_by, completed, full_words, lacks_target};
ghost use Rattle.jop_start.specs.Defaults.{password_behind, with_target};

use jop_base::{Copied, Seq, Text, let_go};
use std::alloc::{AllocError, Global};

/// The words that are read where the environment names a profile, a target and a password: those that
/// were typed, with the profile in front where they name none, with the target behind `sync`, `upgrade`
/// and `check` where it is left out, and with the password behind `blob` and `keys --new` where it is.
pub fn full_words(
    alloc: Global,
    words: &[Text],
    profile: Option<Text>,
    target: Option<Text>,
    password: Option<Text>,
) -> Result<Seq<Text>, AllocError>
    ensures { IfOk result (λ full. full ≡ full_words profile target password words.now) }
{
    match words {
        [option, path, words @ ..] if option.as_str() == "--profile" => {
            let path = path.copy(alloc)?;
            words_behind(alloc, Some(path), words, target, password)
        }
        words => words_behind(alloc, profile, words, target, password),
    }
}

/// The words of this profile, if there is one.
fn words_behind(
    alloc: Global,
    profile: Option<Text>,
    words: &[Text],
    target: Option<Text>,
    password: Option<Text>,
) -> Result<Seq<Text>, AllocError>
    ensures { IfOk result (λ full. full
        ≡ begun_by profile (completed target password words.now)) }
{
    let mut full = Seq::new(alloc);
    if let Some(path) = profile {
        full.push(Text::of(alloc, "--profile")?)?;
        full.push(path)?;
    }
    add_words(alloc, &mut full, words, target)?;
    add_password(alloc, &mut full, words, password)?;
    Ok(full)
}

/// The words by which a password is named.
fn password_option(alloc: Global, password: Text) -> Result<Seq<Text>, AllocError>
    ensures { IfOk result (λ words. words ≡ codes "--password" ∷ password ∷ []) }
{
    let mut words = Seq::new(alloc);
    words.push(Text::of(alloc, "--password")?)?;
    words.push(password)?;
    Ok(words)
}

/// Adds the password where a command that may have one stands without it.
fn add_password(
    alloc: Global,
    full: &mut Seq<Text>,
    words: &[Text],
    password: Option<Text>,
) -> Result<(), AllocError>
    ensures { OnOk result (full.new ≡ full.old ++ password_behind password words.now) }
{
    let Some(password) = password else {
        return Ok(());
    };
    match words {
        [command, _id] if command.as_str() == "blob" => {
            let option = password_option(alloc, password)?;
            add_all(alloc, full, option.as_slice())
        }
        [command, option] if command.as_str() == "keys" && option.as_str() == "--new" => {
            full.push(password)
        }
        _ => {
            let_go(password);
            Ok(())
        }
    }
}

/// Adds the words of a command, and the target where it is left out.
fn add_words(
    alloc: Global,
    full: &mut Seq<Text>,
    words: &[Text],
    target: Option<Text>,
) -> Result<(), AllocError>
    ensures { OnOk result (full.new ≡ full.old ++ with_target target words.now) }
{
    let Some(target) = target else {
        return add_all(alloc, full, words);
    };
    match words {
        [command, others @ ..] if lacks_target(command, others) => {
            full.push(command.copy(alloc)?)?;
            full.push(target)?;
            add_all(alloc, full, others)
        }
        words => add_all(alloc, full, words),
    }
}

fn add_all(alloc: Global, full: &mut Seq<Text>, words: &[Text]) -> Result<(), AllocError>
    ensures { OnOk result (full.new ≡ full.old ++ words.now) }
{
    for word in words {
        full.push(word.copy(alloc)?)?;
    }
    Ok(())
}

/// Whether the command has a target, and stands without it.
fn lacks_target(command: &Text, others: &[Text]) -> bool
    ensures { result ≡ lacks_target command.now others.now }
{
    match others {
        [] => command.as_str() == "sync" || command.as_str() == "upgrade",
        [_client] => command.as_str() == "check",
        _ => false,
    }
}
