//! The bytes of a regular file.

ghost use Rattle.std.specs.Prelude.{◌≡◌, ◌+◌, ◌-◌, ◌%◌, ◌<◌, ◌^◌, [], length, take, drop, replicate, IfOk, OnOk, OnErr};
ghost use Rattle.nr_tree.specs.Bytes.{with_bytes_at, with_length};
ghost use Rattle.nr_tree.specs.Pages.{page_size, pages_of};

use crate::pages::{PAGE_SIZE, Pages, cut_pages, part_of_page, write_pages};
use nr_xdr::Memory;
use std::alloc::Global;
use std::collections::BTreeMap;
use std::marker::Model;

/// The bytes of a regular file. Contracts see the list of them. They are kept as pages of 4096 bytes by number; a page is kept if and
/// only if it holds a byte that isn't 0.
#[derive(Drop)]
pub struct File {
    alloc: Global,
    len: u64,
    pages: Pages,
}

impl Model for File {
    ghost use Rattle.std.specs.Prelude.{List, ℕ};
    ghost use Rattle.nr_tree.specs.Paged.{ArePages, bytes_in};

    ghost Value = { List ℕ };

    ghost view = { λ f. bytes_in f.pages.entries f.len };

    ghost invariant = { λ f. ArePages f.pages.entries f.len };
}

impl File {
    /// No bytes. Takes no memory.
    pub fn new(alloc: Global) -> File
        ensures { result ≡ [] }
    {
        File {
            alloc,
            len: 0,
            pages: BTreeMap::new(alloc),
        }
    }

    /// The file of these bytes.
    pub fn from_slice(alloc: Global, bytes: &[u8]) -> Result<File, Memory>
        requires { length bytes.now < 2 ^ 62 }
        ensures { IfOk result (λ f. f ≡ bytes.now) }
    {
        let mut file = File::new(alloc);
        file.write(0, bytes)?;
        Ok(file)
    }

    /// A file of `len` zeros. Takes no memory.
    pub fn zeros(alloc: Global, len: u64) -> File
        ensures { result ≡ replicate len 0 }
    {
        let mut file = File::new(alloc);
        file.set_len(len);
        file
    }

    /// How many bytes there are.
    pub fn len(&self) -> u64
        ensures { result ≡ length self.now }
    {
        self.len
    }

    /// How many pages are kept: those that hold a byte that isn't 0. Takes no memory.
    pub fn pages(&self) -> usize
        ensures { result ≡ pages_of self.now }
    {
        self.pages.len()
    }

    /// The bytes from an offset on, as many as are asked for, are there and lie in its page. Takes no memory.
    pub fn read(&self, offset: u64, count: u32) -> &[u8]
        ensures { result.now ≡ take count (take (page_size - offset % page_size) (drop offset self.now)) }
    {
        if self.len <= offset {
            return &[];
        }
        let room = PAGE_SIZE - offset % PAGE_SIZE; // the rest of the page
        let left = self.len - offset;
        part_of_page(&self.pages, offset, (count as u64).min(room).min(left))
    }

    /// Writes over the bytes from an offset on; a gap before it becomes zeros. After an `Err` the file is as before.
    pub fn write(&mut self, offset: u64, bytes: &[u8]) -> Result<(), Memory>
        requires { offset + length bytes.now < 2 ^ 62 }
        ensures ok { OnOk result (self.new ≡ with_bytes_at self.old offset bytes.now) }
        ensures err { OnErr result (self.new ≡ self.old) }
    {
        write_pages(self.alloc, &mut self.pages, offset, bytes)?;
        self.len = self.len.max(offset + bytes.len() as u64);
        Ok(())
    }

    /// Cuts the file, or adds zeros. Takes no memory.
    pub fn set_len(&mut self, len: u64)
        ensures { self.new ≡ with_length self.old len }
    {
        if self.len <= len {
            self.len = len;
            return;
        }
        cut_pages(&mut self.pages, len, self.len);
        self.len = len;
    }
}
