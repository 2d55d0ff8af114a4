use nr_nfs_base::Handle;
use std::alloc::Global;

/// A file that is read: by which user and group, its handle, its size in bytes, and by how many jobs, 1 to 16.
#[derive(Drop)]
pub(crate) struct FileToRead<'a> {
    pub(crate) alloc: Global,
    pub(crate) uid: u32,
    pub(crate) gid: u32,
    pub(crate) handle: &'a Handle,
    pub(crate) size: u64,
    pub(crate) jobs: usize,
}
