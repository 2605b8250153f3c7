ghost use Rattle.std.specs.Prelude.{◌≡◌, ◌≤◌, List, ℕ, IfOk, OnOk, OnErr, Some, false};
ghost use Rattle.jop_base.specs.Times.{last_time};
ghost use Rattle.jop_target.specs.Memory.{IsSoundStore, no_contents, with_folder, with_placed, without};
ghost use Rattle.jop_target.specs.Replies.{IsCallable, IsReplyTo, KeepsBlob, names_blob};
ghost use Rattle.jop_target.specs.Store.{contents_after, without_blob, bytes_of, reply_of};

use crate::answers::{deleted, entries_in, got, got_blob};
use crate::call::Call;
use crate::limits::limit_of;
use crate::reply::{Listing, Reply};
use crate::tree::{BlobBytes, Content, File, Tree};
use jop_base::{Bytes, Copied, Dir, Id, Path, Seq};
use std::alloc::{AllocError, Global};
use std::marker::Model;

/// A store of files in memory, which is asked at a moment that its caller names. What a call is
/// answered and what it changes are two steps, so that a caller may lose one of them. Out of
/// memory, it is as before.
#[derive(Debug, Drop)]
pub struct MemStore {
    tree: Tree,
    blobs: Seq<BlobBytes>,
}

impl Model for MemStore {
    ghost use Rattle.jop_target.specs.Memory.{IsSoundStore};
    ghost use Rattle.jop_target.specs.Store.{Contents};

    ghost Value = { Contents };

    ghost view = { λ m. record { tree = m.tree; blobs = m.blobs } };

    ghost invariant = { λ m. IsSoundStore (record { tree = m.tree; blobs = m.blobs }) };
}

impl MemStore {
    /// A store that holds nothing.
    pub fn new(alloc: Global) -> MemStore
        ensures { result ≡ no_contents }
    {
        MemStore {
            tree: Tree {
                files: Seq::new(alloc),
                folders: Seq::new(alloc),
            },
            blobs: Seq::new(alloc),
        }
    }

    /// Sets a file, written at `stamp`, in milliseconds since 1970.
    pub fn place(&mut self, path: Path, content: Bytes, stamp: u64) -> Result<(), AllocError>
        requires { stamp ≤ last_time }
        ensures ok { OnOk result (self.new ≡ with_placed self.old path content stamp) }
        ensures err { OnErr result (self.new ≡ self.old) }
    {
        match path {
            Path::Blob(id) => self.place_blob(id, content, stamp),
            _ => self.place_whole(path, content, stamp),
        }
    }

    /// The files and folders. Of a blob there is the number of its bytes.
    pub fn tree(&self) -> &Tree
        ensures tree { result.now ≡ self.now.tree }
        ensures sound { IsSoundStore self.now }
    {
        &self.tree
    }

    /// What a call is answered at the moment `now`, in milliseconds since 1970. The bytes of a blob
    /// that is got are left in `blob`.
    #[tactic(auto, unfolding(crate::specs::Store::reply_of))]
    pub fn answer(
        &self,
        alloc: Global,
        call: &Call,
        blob: &mut Bytes,
        now: u64,
    ) -> Result<Reply, AllocError>
        requires callable { IsCallable call.now blob.old }
        requires early { now ≤ last_time }
        ensures reply { IfOk result (λ reply. reply ≡ reply_of self.now.tree now call.now) }
        ensures shape { IfOk result (λ reply. IsReplyTo call.now reply) }
        ensures blob { KeepsBlob (Some self.now) call.now blob.old result blob.new }
    {
        match call {
            Call::List(dir) => self.list(alloc, *dir, now),
            Call::Get(path) => self.get(alloc, path, now),
            Call::GetBlob(id) => self.get_blob(alloc, *id, blob, now),
            Call::Delete(path) => Ok(deleted(self.tree.files.at(path), now)),
            Call::Put(_, _) | Call::MakeDir(_) | Call::PutBlob { id: _, len: _ } => {
                Ok(Reply::Done { now })
            }
        }
    }

    /// What a call changes that lands at the moment `now`, in milliseconds since 1970. The bytes of
    /// a blob that is put are those in `blob`.
    #[tactic(auto, unfolding(crate::specs::Store::tree_after))]
    pub fn change(
        &mut self,
        alloc: Global,
        call: &Call,
        blob: &Bytes,
        now: u64,
    ) -> Result<(), AllocError>
        requires callable { IsCallable call.now blob.now }
        requires early { now ≤ last_time }
        ensures ok { OnOk result (self.new ≡ contents_after self.old now call.now blob.now) }
        ensures err { OnErr result (self.new ≡ self.old) }
    {
        match call {
            Call::Put(path, content) => self.place(*path, content.copy(alloc)?, now),
            Call::PutBlob { id, len: _ } => self.place(Path::Blob(*id), blob.copy(alloc)?, now),
            Call::MakeDir(dir) => self.make_dir(*dir),
            Call::Delete(path) => {
                self.delete(path);
                Ok(())
            }
            Call::List(_) | Call::Get(_) | Call::GetBlob(_) => Ok(()),
        }
    }

    #[tactic(auto, unfolding(crate::specs::Store::reply_of))]
    fn list(&self, alloc: Global, dir: Dir, now: u64) -> Result<Reply, AllocError>
        requires { now ≤ last_time }
        ensures reply { IfOk result (λ reply. reply ≡ reply_of self.now.tree now (Call.List dir)) }
        ensures shape { IfOk result (IsReplyTo (Call.List dir)) }
    {
        let entries = entries_in(alloc, self.tree.files.as_slice(), dir)?;
        Ok(Reply::Listed(Listing { now, entries }))
    }

    #[tactic(auto, unfolding(crate::specs::Store::reply_of))]
    fn get(&self, alloc: Global, path: &Path, now: u64) -> Result<Reply, AllocError>
        requires plain { names_blob path.now ≡ false }
        requires early { now ≤ last_time }
        ensures reply { IfOk result (λ reply. reply ≡ reply_of self.now.tree now (Call.Get path.now)) }
        ensures shape { IfOk result (IsReplyTo (Call.Get path.now)) }
    {
        path.prove_valid();
        got(alloc, self.tree.files.at(path), limit_of(path), now)
    }

    #[tactic(auto, unfolding(crate::specs::Store::reply_of))]
    fn get_blob(
        &self,
        alloc: Global,
        id: Id,
        blob: &mut Bytes,
        now: u64,
    ) -> Result<Reply, AllocError>
        requires { now ≤ last_time }
        ensures reply { IfOk result (λ reply. reply ≡ reply_of self.now.tree now (Call.GetBlob id)) }
        ensures shape { IfOk result (IsReplyTo (Call.GetBlob id)) }
        ensures blob { KeepsBlob (Some self.now) (Call.GetBlob id) blob.old result blob.new }
    {
        id.prove_valid();
        let reply = got_blob(self.tree.files.at(&Path::Blob(id)), now);
        let Reply::GotBlob { now: _, len: _ } = reply else {
            return Ok(reply);
        };
        *blob = self.bytes_of(alloc, id)?;
        Ok(reply)
    }

    /// The bytes of a blob; none, if there is no such blob.
    fn bytes_of(&self, alloc: Global, id: Id) -> Result<Bytes, AllocError>
        ensures { IfOk result (λ bytes. bytes ≡ bytes_of self.now.blobs id) }
    {
        match self.blobs.at(&id) {
            None => Ok(Bytes::new(alloc)),
            Some(blob) => blob.bytes.copy(alloc),
        }
    }

    fn place_whole(&mut self, path: Path, content: Bytes, stamp: u64) -> Result<(), AllocError>
        requires plain { names_blob path ≡ false }
        requires early { stamp ≤ last_time }
        ensures ok { OnOk result (self.new ≡ with_placed self.old path content stamp) }
        ensures err { OnErr result (self.new ≡ self.old) }
    {
        path.prove_valid();
        let file = File {
            path,
            content: Content::Whole(content),
            stamp,
        };
        self.tree.files.put(file)?;
        Ok(())
    }

    fn place_blob(&mut self, id: Id, content: Bytes, stamp: u64) -> Result<(), AllocError>
        requires { stamp ≤ last_time }
        ensures ok { OnOk result (self.new ≡ with_placed self.old (Path.Blob id) content stamp) }
        ensures err { OnErr result (self.new ≡ self.old) }
    {
        id.prove_valid();
        let file = File {
            path: Path::Blob(id),
            content: Content::Sized(content.len() as u64),
            stamp,
        };
        let blob = BlobBytes { id, bytes: content };
        self.tree.files.put_both(file, &mut self.blobs, blob)?;
        Ok(())
    }

    fn make_dir(&mut self, dir: Dir) -> Result<(), AllocError>
        ensures ok { OnOk result (self.new ≡ with_folder self.old dir) }
        ensures err { OnErr result (self.new ≡ self.old) }
    {
        self.tree.folders.put(dir)?;
        Ok(())
    }

    fn delete(&mut self, path: &Path)
        ensures { self.new ≡ without self.old path.now }
    {
        let _file = self.tree.files.cut(path);
        cut_blob(&mut self.blobs, path);
    }
}

/// Takes the bytes of a file out, if it is a blob.
fn cut_blob(blobs: &mut Seq<BlobBytes>, path: &Path)
    ensures { blobs.new ≡ without_blob blobs.old path.now }
{
    if let Path::Blob(id) = path {
        let _bytes = blobs.cut(id);
    }
}
