//! What pages come to. Each law is a function with nothing to do, whose contract says it.

ghost use Rattle.std.specs.Prelude.{◌≡◌, ◌≤◌, ◌<◌, ℕ, List, Contains, Option, Some};
ghost use Rattle.jop_base.specs.declared.context.Context.{Context};
ghost use Rattle.jop_target.specs.declared.reply.Listing.{Listing};
ghost use Rattle.delta.specs.Page.{IsPageOf, ShowsFile};
ghost use Rattle.delta.specs.Tombs.{recorded_in};
ghost use Rattle.delta.specs.declared.mark.Mark.{Mark};
ghost use Rattle.delta.specs.declared.page.Page.{Page};

/// A listing has one page for a client.
pub fn is_the_only_one()
    ensures { (listing : Listing) (tombs : Option Listing) (context : Context)
        (synced : List (List ℕ)) (one other : Page)
        → IsPageOf listing tombs context synced one → IsPageOf listing tombs context synced other
        → one ≡ other }
{}

/// Nothing is missed: an item of a later listing is read again, unless it was written before the earlier listing was
/// taken, or before the last item that the client had read then.
pub fn misses_nothing()
    ensures { (first later : Listing) (tombs later_tombs : Option Listing) (context : Context)
        (synced ids : List (List ℕ)) (page next : Page) (m : Mark)
        → IsPageOf first tombs context synced page → IsPageOf later later_tombs page.next ids next
        → ShowsFile later m → first.now ≤ m.stamp → page.next.moment ≤ m.stamp
        → Contains next.taken m.id }
{}

/// Nothing is fetched twice: an item that the earlier listing shows, written before that listing was taken, isn't read
/// again, while each file of its id in the later listing was written at that very moment.
pub fn fetches_once()
    ensures { (first later : Listing) (tombs later_tombs : Option Listing) (context : Context)
        (synced ids : List (List ℕ)) (page next : Page) (m : Mark)
        → IsPageOf first tombs context synced page → IsPageOf later later_tombs page.next ids next
        → ShowsFile first m → m.stamp < first.now
        → ((n : Mark) → ShowsFile later n → n.id ≡ m.id → n.stamp ≡ m.stamp)
        → Contains next.taken m.id → ⊥ }
{}

/// Where deletions are recorded, absence alone deletes nothing: what is gone is recorded as deleted.
/// And what the root shows is never gone.
pub fn absence_alone_deletes_nothing()
    ensures recorded { (listing tombs : Listing) (context : Context) (synced : List (List ℕ))
        (page : Page) (id : List ℕ)
        → IsPageOf listing (Some tombs) context synced page → Contains page.gone id
        → Contains (recorded_in tombs.entries) id }
    ensures stays { (listing : Listing) (tombs : Option Listing) (context : Context)
        (synced : List (List ℕ)) (page : Page) (m : Mark)
        → IsPageOf listing tombs context synced page → ShowsFile listing m
        → Contains page.gone m.id → ⊥ }
{}
