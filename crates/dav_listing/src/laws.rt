//! What the definitions promise. Each law is a function with nothing to do, whose contract says it.

ghost use Rattle.std.specs.Prelude.{◌≡◌, ◌<◌, ◌++◌, ℕ, List, Some, All, Contains, false};
ghost use Rattle.jop_base.specs.Paths.{IsPath, dir_of, file_name};
ghost use Rattle.jop_base.specs.declared.dir.Dir.{Dir};
ghost use Rattle.jop_base.specs.declared.path.Path.{Path};
ghost use Rattle.jop_target.specs.declared.reply.Entry.{Entry};
ghost use Rattle.dav_listing.specs.Grammar.{IsWritten};
ghost use Rattle.dav_listing.specs.Hrefs.{path_of};
ghost use Rattle.dav_listing.specs.Listings.{ListsFiles};
ghost use Rattle.dav_listing.specs.Multistatus.{kept_bytes, members_in, progress_of};
ghost use Rattle.dav_listing.specs.declared.member.Member.{Member};

/// A resource that a listing shows under the name of a file of the folder is listed as that file.
pub fn a_shown_file_is_listed()
    ensures { (dir : Dir) (folder body : List ℕ) (entries : List Entry)
        (listing : ListsFiles dir folder body entries) (member : Member) (path : Path)
        → Contains listing.members member
        → path_of member.href ≡ Some (folder ++ file_name path)
        → dir_of path ≡ dir → IsPath path
        → (entry : Entry) × Contains entries entry × (entry.path ≡ path) }
{}

/// A file that is listed is shown, under its name and with its stamp.
pub fn a_listed_file_is_shown()
    ensures { (dir : Dir) (folder body : List ℕ) (entries : List Entry)
        (listing : ListsFiles dir folder body entries) (entry : Entry) → Contains entries entry
        → (member : Member) × Contains listing.members member
        × (path_of member.href ≡ Some (folder ++ file_name entry.path))
        × (member.props.stamp ≡ Some entry.stamp) × (member.props.folder ≡ Some false) }
{}

/// What is listed are files of the folder.
pub fn a_listed_file_is_of_the_folder()
    ensures { (dir : Dir) (folder body : List ℕ) (entries : List Entry)
        → ListsFiles dir folder body entries
        → All (λ (e : Entry). IsPath e.path × (dir_of e.path ≡ dir)) entries }
{}

/// A body is one listing of a folder at most.
pub fn a_body_is_one_listing()
    ensures { (dir : Dir) (folder body : List ℕ) (one other : List Entry)
        → ListsFiles dir folder body one → ListsFiles dir folder body other → one ≡ other }
{}

/// Each text that a server may write for a multistatus is read as the resources that it shows.
pub fn a_written_multistatus_is_read()
    ensures { (members : List Member) (text : List ℕ)
        → IsWritten members text → members_in text ≡ Some members }
{}

/// Whatever the body, a reader keeps less than 8,192 bytes of it from byte to byte.
pub fn a_reader_keeps_few_bytes()
    ensures { (body : List ℕ) → kept_bytes (progress_of body).reader < 8192 }
{}
