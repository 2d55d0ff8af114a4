//! What commands begin with: the export is mounted, and a file is found along a path.

ghost use Rattle.std.specs.Prelude.{◌≡◌};
ghost use Rattle.nr_commands.specs.Commands.{FindsOver, FindsParentOver, MountsOver};

use nr_client::{Calls, ClientEnd, Session};
use nr_nfs_base::{Handle, MOUNT_PATH_MAX, MountPath, Name};
use std::alloc::Global;

/// The maximum length of the path of an export in bytes.
const EXPORT_MAX: usize = MOUNT_PATH_MAX as usize;

/// The file handle of the root of an export.
pub(crate) fn mount<L: Calls>(
    alloc: Global,
    session: &mut Session<L>,
    export: &str,
) -> Result<Handle, ClientEnd>
    ensures part { MountsOver L.relations session.old.uid session.old.gid export.now (L.at session.old.link) (L.at session.new.link) result }
    ensures user { (session.new.uid ≡ session.old.uid) × (session.new.gid ≡ session.old.gid) }
{
    let len = export.len();
    if len > EXPORT_MAX {
        return Err(ClientEnd::Budget {
            count: EXPORT_MAX as u64,
        });
    }
    let Ok(path) = MountPath::from_slice(alloc, export.as_bytes()) else {
        return Err(ClientEnd::Memory);
    };
    session.mount(&path)
}

/// The file handle of a path in an export.
pub(crate) fn find<L: Calls>(
    alloc: Global,
    session: &mut Session<L>,
    export: &str,
    path: &str,
) -> Result<Handle, ClientEnd>
    ensures part { FindsOver L.relations session.old.uid session.old.gid export.now path.now (L.at session.old.link) (L.at session.new.link) result }
    ensures user { (session.new.uid ≡ session.old.uid) × (session.new.gid ≡ session.old.gid) }
{
    let root = match mount(alloc, session, export) {
        Ok(root) => root,
        Err(end) => return Err(end),
    };
    session.walk(&root, path.as_bytes())
}

/// The file handle of the directory that has the last component of a path in an export, and that component.
pub(crate) fn find_parent<L: Calls>(
    alloc: Global,
    session: &mut Session<L>,
    export: &str,
    path: &str,
) -> Result<(Handle, Name), ClientEnd>
    ensures part { FindsParentOver L.relations session.old.uid session.old.gid export.now path.now (L.at session.old.link) (L.at session.new.link) result }
    ensures user { (session.new.uid ≡ session.old.uid) × (session.new.gid ≡ session.old.gid) }
{
    let root = match mount(alloc, session, export) {
        Ok(root) => root,
        Err(end) => return Err(end),
    };
    session.walk_to_parent(&root, path.as_bytes())
}
