//! What each command prints.

ghost use Rattle.std.specs.Prelude.{◌≡◌, ◌++◌, IfOk, OnOk};
ghost use Rattle.std.specs.String.{string_bytes};
ghost use Rattle.nr_commands.specs.Printed.{attributes_text, handle_text, names_text, octal_digit, owner_text, path_text, size_text, type_text};

use nr_client::Names;
use nr_nfs_base::{Attributes, FileType, Handle, Name, Path};
use nr_xdr::{Memory, Octets};
use std::alloc::Global;

/// The type of a file.
fn type_text(file_type: FileType) -> &'static str
    ensures { result.now ≡ type_text file_type }
{
    match file_type {
        FileType::Reg => "reg",
        FileType::Dir => "dir",
        FileType::Blk => "blk",
        FileType::Chr => "chr",
        FileType::Lnk => "lnk",
        FileType::Sock => "sock",
        FileType::Fifo => "fifo",
    }
}

/// The last octal digit of a number.
fn octal_digit(number: u32) -> u8
    ensures { result ≡ octal_digit number }
{
    b'0' + (number % 8) as u8
}

/// The number of links and the owner, with a space before each.
#[tactic(auto, unfolding(crate::specs::Printed::owner_text))]
fn owner_text(alloc: Global, nlink: u32, uid: u32, gid: u32) -> Result<String, Memory>
    ensures { IfOk result (λ text. string_bytes text ≡ owner_text nlink uid gid) }
{
    let text = format!(in alloc; " {nlink} {uid} {gid}")?;
    Ok(text)
}

/// The size and the number of the file, with a space before each.
#[tactic(auto, unfolding(crate::specs::Printed::size_text))]
fn size_text(alloc: Global, size: u64, fileid: u64) -> Result<String, Memory>
    ensures { IfOk result (λ text. string_bytes text ≡ size_text size fileid) }
{
    let text = format!(in alloc; " {size} {fileid}\n")?;
    Ok(text)
}

/// What `stat` prints.
pub(crate) fn attributes_text(alloc: Global, attributes: &Attributes) -> Result<Octets, Memory>
    ensures { IfOk result (λ text. text ≡ attributes_text attributes.now) }
{
    let mode = attributes.mode;
    let digits = [
        b' ',
        octal_digit(mode / 512),
        octal_digit(mode / 64),
        octal_digit(mode / 8),
        octal_digit(mode),
    ];
    let owner = owner_text(alloc, attributes.nlink, attributes.uid, attributes.gid)?;
    let size = size_text(alloc, attributes.size, attributes.fileid)?;
    let mut text = Octets::from_slice(alloc, type_text(attributes.file_type).as_bytes())?;
    text.extend_from_slice(&digits)?;
    text.extend_from_slice(owner.as_bytes())?;
    text.extend_from_slice(size.as_bytes())?;
    Ok(text)
}

/// What `mount` prints.
pub(crate) fn handle_text(alloc: Global, handle: &Handle) -> Result<Octets, Memory>
    ensures { IfOk result (λ text. text ≡ handle_text handle.now) }
{
    let digits = hex::encode(alloc, handle.as_slice())?;
    let mut text = Octets::from_slice(alloc, b"handle ")?;
    text.extend_from_slice(digits.as_bytes())?;
    text.extend_from_slice(b"\n")?;
    Ok(text)
}

/// What `readlink` prints.
pub(crate) fn path_text(alloc: Global, path: &Path) -> Result<Octets, Memory>
    ensures { IfOk result (λ text. text ≡ path_text path.now) }
{
    let mut text = Octets::from_slice(alloc, path.as_slice())?;
    text.extend_from_slice(b"\n")?;
    Ok(text)
}

/// Names, each on a line, after a text.
fn push_names(text: &mut Octets, names: &[Name]) -> Result<(), Memory>
    ensures { OnOk result (text.new ≡ text.old ++ names_text names.now) }
{
    for name in names {
        text.extend_from_slice(name.as_slice())?;
        text.extend_from_slice(b"\n")?;
    }
    Ok(())
}

/// What `ls` prints.
pub(crate) fn names_text(alloc: Global, names: &Names) -> Result<Octets, Memory>
    ensures { IfOk result (λ text. text ≡ names_text names.now) }
{
    let mut text = Octets::new(alloc);
    push_names(&mut text, names.as_slice())?;
    Ok(text)
}
