ghost use Rattle.std.specs.Prelude.{◌↔◌, List, IfSome, IfNone, IsTrue, IsPermutation, IsSorted};
ghost use Rattle.jop_base.specs.Order.{path_cmp};
ghost use Rattle.jop_target.specs.Replies.{IsRising};
ghost use Rattle.jop_target.specs.declared.reply.Entry.{Entry as Shown};

use jop_base::Seq;
use jop_target::Entry;

/// Puts files in the order of their paths' texts.
fn sort(entries: &mut Vec<Entry>)
    ensures same { IsPermutation entries.old.items entries.new.items }
    ensures sorted { IsSorted (λ e f. path_cmp e.path f.path) entries.new.items }
{
    entries.sort_unstable_by(|a, b| a.path.compare(&b.path));
}

/// Whether each path's text stands before the next one's.
fn is_rising(entries: &[Entry]) -> bool
    ensures { IsTrue result ↔ IsRising entries.now }
{
    entries.is_sorted_by(|a, b| a.path.compare(&b.path).is_lt())
}

/// The files in the order of their paths' texts. None if one is there twice.
pub(crate) fn in_rising_order(files: Seq<Entry>) -> Option<Seq<Entry>>
    ensures some { IfSome result (λ entries. IsPermutation files entries × IsRising entries) }
    ensures none { IfNone result
        ((entries : List Shown) → IsPermutation files entries → ¬ (IsRising entries)) }
{
    let mut files = files.into_vec();
    sort(&mut files);
    if is_rising(&files) {
        Some(Seq::from_vec(files))
    } else {
        None
    }
}
