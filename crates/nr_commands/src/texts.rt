//! The commands whose result is a text.

ghost use Rattle.std.specs.Prelude.{◌≡◌, List, ℕ, IfOk, MatchResult};
ghost use Rattle.nr_client.specs.declared.client_end.ClientEnd.TheVariants as client;
ghost use Rattle.nr_commands.specs.Commands.{ListsOver, MakesDirectoryOver, MakesSymlinkOver, MountsAndPrintsOver, ReadsLinkOver, RemovesOver, StatsOver, SymlinksOver};

use crate::finding::{find, find_parent, mount};
use crate::printing::{attributes_text, handle_text, names_text, path_text};
use nr_client::{Calls, ClientEnd, Session};
use nr_nfs_base::{Handle, LINK_TARGET_MAX, Name, Path};
use nr_nfs_res::CreateOk;
use nr_xdr::{Memory, Octets};
use std::alloc::Global;

/// The maximum length of the path of a symbolic link in bytes.
const TARGET_MAX: usize = LINK_TARGET_MAX as usize;

/// A text, if there was memory for it.
fn printed(text: Result<Octets, Memory>) -> Result<Octets, ClientEnd>
    ensures { (is : List ℕ) → IfOk text (λ t. t ≡ is) → MatchResult result (λ t. t ≡ is) (λ end. end ≡ client.Memory) }
{
    match text {
        Ok(text) => Ok(text),
        Err(_) => Err(ClientEnd::Memory),
    }
}

/// `mount`: the file handle of the root of an export.
pub(crate) fn mount_text<L: Calls>(
    alloc: Global,
    session: &mut Session<L>,
    export: &str,
) -> Result<Octets, ClientEnd>
    ensures part { MountsAndPrintsOver L.relations session.old.uid session.old.gid export.now (L.at session.old.link) (L.at session.new.link) result }
    ensures user { (session.new.uid ≡ session.old.uid) × (session.new.gid ≡ session.old.gid) }
{
    let root = match mount(alloc, session, export) {
        Ok(root) => root,
        Err(end) => return Err(end),
    };
    printed(handle_text(alloc, &root))
}

/// `ls`: the names in a directory.
pub(crate) fn list_text<L: Calls>(
    alloc: Global,
    session: &mut Session<L>,
    export: &str,
    path: &str,
) -> Result<Octets, ClientEnd>
    ensures part { ListsOver L.relations session.old.uid session.old.gid export.now path.now (L.at session.old.link) (L.at session.new.link) result }
    ensures user { (session.new.uid ≡ session.old.uid) × (session.new.gid ≡ session.old.gid) }
{
    let dir = match find(alloc, session, export, path) {
        Ok(dir) => dir,
        Err(end) => return Err(end),
    };
    let names = match session.list(&dir) {
        Ok(names) => names,
        Err(end) => return Err(end),
    };
    printed(names_text(alloc, &names))
}

/// `stat`: the attributes of a file.
pub(crate) fn stat_text<L: Calls>(
    alloc: Global,
    session: &mut Session<L>,
    export: &str,
    path: &str,
) -> Result<Octets, ClientEnd>
    ensures part { StatsOver L.relations session.old.uid session.old.gid export.now path.now (L.at session.old.link) (L.at session.new.link) result }
    ensures user { (session.new.uid ≡ session.old.uid) × (session.new.gid ≡ session.old.gid) }
{
    let file = match find(alloc, session, export, path) {
        Ok(file) => file,
        Err(end) => return Err(end),
    };
    let attributes = match session.stat(&file) {
        Ok(attributes) => attributes,
        Err(end) => return Err(end),
    };
    printed(attributes_text(alloc, &attributes))
}

/// `readlink`: the path of a symbolic link.
pub(crate) fn read_link_text<L: Calls>(
    alloc: Global,
    session: &mut Session<L>,
    export: &str,
    path: &str,
) -> Result<Octets, ClientEnd>
    ensures part { ReadsLinkOver L.relations session.old.uid session.old.gid export.now path.now (L.at session.old.link) (L.at session.new.link) result }
    ensures user { (session.new.uid ≡ session.old.uid) × (session.new.gid ≡ session.old.gid) }
{
    let file = match find(alloc, session, export, path) {
        Ok(file) => file,
        Err(end) => return Err(end),
    };
    let link = match session.read_link(&file) {
        Ok(link) => link,
        Err(end) => return Err(end),
    };
    printed(path_text(alloc, &link.path))
}

/// `mkdir`: a directory is made. Nothing is printed.
pub(crate) fn make_directory<L: Calls>(
    alloc: Global,
    session: &mut Session<L>,
    export: &str,
    path: &str,
) -> Result<Octets, ClientEnd>
    ensures part { MakesDirectoryOver L.relations session.old.uid session.old.gid export.now path.now (L.at session.old.link) (L.at session.new.link) result }
    ensures user { (session.new.uid ≡ session.old.uid) × (session.new.gid ≡ session.old.gid) }
{
    let place = match find_parent(alloc, session, export, path) {
        Ok(place) => place,
        Err(end) => return Err(end),
    };
    match session.mkdir(&place.0, &place.1) {
        Ok(made) => drop(made),
        Err(end) => return Err(end),
    }
    Ok(Octets::new(alloc))
}

/// `rm`: what is no directory is removed. Nothing is printed.
pub(crate) fn remove<L: Calls>(
    alloc: Global,
    session: &mut Session<L>,
    export: &str,
    path: &str,
) -> Result<Octets, ClientEnd>
    ensures part { RemovesOver L.relations session.old.uid session.old.gid export.now path.now (L.at session.old.link) (L.at session.new.link) result }
    ensures user { (session.new.uid ≡ session.old.uid) × (session.new.gid ≡ session.old.gid) }
{
    let place = match find_parent(alloc, session, export, path) {
        Ok(place) => place,
        Err(end) => return Err(end),
    };
    match session.remove(&place.0, &place.1) {
        Ok(removed) => drop(removed),
        Err(end) => return Err(end),
    }
    Ok(Octets::new(alloc))
}

/// SYMLINK with this path.
fn symlink<L: Calls>(
    alloc: Global,
    session: &mut Session<L>,
    dir: &Handle,
    name: &Name,
    target: &str,
) -> Result<CreateOk, ClientEnd>
    ensures part { SymlinksOver L.relations session.old.uid session.old.gid dir.now name.now target.now (L.at session.old.link) (L.at session.new.link) result }
    ensures user { (session.new.uid ≡ session.old.uid) × (session.new.gid ≡ session.old.gid) }
{
    let len = target.len();
    if len > TARGET_MAX {
        return Err(ClientEnd::Budget {
            count: TARGET_MAX as u64,
        });
    }
    let Ok(path) = Path::from_slice(alloc, target.as_bytes()) else {
        return Err(ClientEnd::Memory);
    };
    session.link(dir, name, &path)
}

/// `ln`: a symbolic link is made. Nothing is printed.
pub(crate) fn make_link<L: Calls>(
    alloc: Global,
    session: &mut Session<L>,
    export: &str,
    path: &str,
    target: &str,
) -> Result<Octets, ClientEnd>
    ensures part { MakesSymlinkOver L.relations session.old.uid session.old.gid export.now path.now target.now (L.at session.old.link) (L.at session.new.link) result }
    ensures user { (session.new.uid ≡ session.old.uid) × (session.new.gid ≡ session.old.gid) }
{
    let place = match find_parent(alloc, session, export, path) {
        Ok(place) => place,
        Err(end) => return Err(end),
    };
    match symlink(alloc, session, &place.0, &place.1, target) {
        Ok(made) => drop(made),
        Err(end) => return Err(end),
    }
    Ok(Octets::new(alloc))
}
