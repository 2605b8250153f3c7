//! What the definitions promise. Each law is a function with nothing to do, whose contract says it.

ghost use Rattle.std.specs.Prelude.{◌≡◌, ℕ, List, None};
ghost use Rattle.jop_base.specs.Paths.{IsPath};
ghost use Rattle.jop_base.specs.declared.dir.Dir.{Dir};
ghost use Rattle.jop_base.specs.declared.path.Path.{Path};
ghost use Rattle.jop_target.specs.declared.reply.Entry.{Entry};
ghost use Rattle.dav_parts.specs.Targets.{path_target, dir_target};
ghost use Rattle.dav_parts.specs.Multistatus.{AreListable, IsMultistatus, ReadsMultistatus};

/// The body that is written for files of a folder, with whole seconds and in rising order, is read
/// as these files; and whatever a body is read as, it is read as nothing else.
pub fn a_written_listing_is_read()
    ensures read { (dir : Dir) (entries : List Entry) (body : List ℕ)
        → AreListable dir None entries → IsMultistatus dir entries body
        → ReadsMultistatus dir entries body }
    ensures only { (dir : Dir) (one other : List Entry) (body : List ℕ)
        → ReadsMultistatus dir one body → ReadsMultistatus dir other body → one ≡ other }
{}

/// A target names one file at most, or one folder.
pub fn a_target_names_one_thing()
    ensures file { (one other : Path) → IsPath one → IsPath other
        → path_target one ≡ path_target other → one ≡ other }
    ensures folder { (one other : Dir) → dir_target one ≡ dir_target other → one ≡ other }
{}
