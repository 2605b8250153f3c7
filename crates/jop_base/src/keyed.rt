ghost use Rattle.std.specs.Prelude.{◌≡◌, ◌<◌, ℕ, List, IfSome, IfNone, IfOk, IfErr, vec_len, vec_capacity, bytes_eq};
ghost use Rattle.std.specs.Option.{option_copied};
ghost use Rattle.std.specs.Ordering.{nat_cmp};
ghost use Rattle.std.specs.Cmp.Lexicographic.{slice_cmp};
ghost use Rattle.jop_base.specs.Keyed.{at, put, cut, IsFirstPlaceOf, IsLacking, Replaces, GoesBefore};
ghost use Rattle.jop_base.specs.Paths.{path_text, dir_text};

use crate::dir::Dir;
use crate::id::Id;
use crate::path::Path;
use std::cmp::Ordering;

/// What items are looked up by: a name with a text.
pub trait Key: Drop {
    ghost text: { Self → List ℕ };

    /// The order of the texts, by bytes.
    fn compare(&self, other: &Self) -> Ordering
        ensures { result ≡ slice_cmp nat_cmp (text self.now) (text other.now) };
}

impl Key for Id {
    ghost text = { λ id. id };

    fn compare(&self, other: &Id) -> Ordering {
        self.cmp(other)
    }
}

impl Key for Dir {
    ghost text = { dir_text };

    fn compare(&self, other: &Dir) -> Ordering {
        self.as_str().cmp(other.as_str())
    }
}

impl Key for Path {
    ghost text = { path_text };

    #[tactic(auto, unfolding(crate::specs::Order::path_cmp))]
    fn compare(&self, other: &Path) -> Ordering {
        Path::compare(self, other)
    }
}

/// An item of a list in which each has a key.
pub trait Keyed: Drop {
    type Key: Key;

    /// The text of the key.
    ghost key: { Self → List ℕ };

    fn key(&self) -> Self::Key
        ensures { Self.Key.text result ≡ key self.now };
}

impl Keyed for Dir {
    type Key = Dir;

    ghost key = { dir_text };

    fn key(&self) -> Dir {
        *self
    }
}

/// How a key stands to that of an item.
fn compare<T: Keyed>(key: &T::Key, item: &T) -> Ordering
    ensures { result ≡ slice_cmp nat_cmp (T.Key.text key.now) (T.key item.now) }
{
    key.compare(&item.key())
}

/// Where the first item of a key stands.
fn place_of<T: Keyed>(items: &[T], key: &T::Key) -> Option<usize>
    ensures some { IfSome result (IsFirstPlaceOf T.key items.now (T.Key.text key.now)) }
    ensures none { IfNone result (IsLacking T.key items.now (T.Key.text key.now)) }
{
    for place in 0..items.len() {
        if compare(key, &items[place]).is_eq() {
            return Some(place);
        }
    }
    None
}

/// Where an item of a key is put: `Ok` in place of the one there, `Err` before that one or at the end.
fn place_for<T: Keyed>(items: &[T], key: &T::Key) -> Result<usize, usize>
    ensures ok { IfOk result (Replaces T.key items.now (T.Key.text key.now)) }
    ensures err { IfErr result (GoesBefore T.key items.now (T.Key.text key.now)) }
{
    for place in 0..items.len() {
        match compare(key, &items[place]) {
            Ordering::Less => return Err(place),
            Ordering::Equal => return Ok(place),
            Ordering::Greater => {}
        }
    }
    Err(items.len())
}

/// The first item of a key.
pub(crate) fn find<'a, T: Keyed>(items: &'a [T], key: &T::Key) -> Option<&'a T>
    ensures { option_copied result ≡ at T.key items.now (T.Key.text key.now) }
{
    match place_of(items, key) {
        Some(place) => items.get(place),
        None => None,
    }
}

/// Puts an item among others when there is room for one more.
pub(crate) fn put<T: Keyed>(items: &mut Vec<T>, item: T)
    requires { vec_len items.old < vec_capacity items.old }
    ensures { items.new.items ≡ put T.key items.old.items item }
{
    match place_for(items, &item.key()) {
        Ok(place) => items[place] = item,
        Err(place) => {
            let _ = items.insert(place, item);
        }
    }
}

/// Takes the first item of a key out.
pub(crate) fn cut<T: Keyed>(items: &mut Vec<T>, key: &T::Key) -> Option<T>
    ensures item { result ≡ at T.key items.old.items (T.Key.text key.now) }
    ensures rest { items.new.items ≡ cut T.key items.old.items (T.Key.text key.now) }
{
    match place_of(items, key) {
        Some(place) => Some(items.remove(place)),
        None => None,
    }
}
