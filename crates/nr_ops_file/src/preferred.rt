//! What FSINFO says of sizes holds of READ, WRITE and the files.

ghost use Rattle.std.specs.Prelude.{◌≡◌, ◌+◌, ◌*◌, ◌<◌, ◌≤◌, ◌↔◌, ℕ, List, None, Some, length, take, drop, Option};
ghost use Rattle.nr_nfs_base.specs.Limits.{listing_max, transfer_max};
ghost use Rattle.nr_nfs_base.specs.declared.status.Status.TheVariants.{Fbig};
ghost use Rattle.nr_ops_file.specs.Bytes.{bytes_at, read_done, piece_written, piece_rules};
ghost use Rattle.nr_ops_file.specs.FileSystem.{fsinfo_ok};
ghost use Rattle.nr_tree.specs.Rules.{first, size_rule};
ghost use Rattle.nr_tree.specs.Sane.{IsSane, file_size_max};
ghost use Rattle.nr_tree.specs.Tree.{Tree};

use nr_nfs_args::{ReadArgs, WriteArgs};
use nr_nfs_base::Attributes;

/// The sizes that FSINFO gives (RFC 1813 section 3.3.19) are those that READ and WRITE keep to: of at most that many bytes,
/// a READ gives all that it asks for and the file has, and a WRITE writes all that it brings; of more, they move that many.
/// The preferred sizes are the largest ones, which are multiples of the suggested multiples, and that of a listing is the limit of
/// READDIR and READDIRPLUS. No file has more than `maxfilesize` bytes. A WRITE whose count is that of its data, a SETATTR or a CREATE
/// is refused with FBIG for its size if and only if a byte would be past that.
pub fn preferred_sizes()
    ensures read { (t : Tree) (args : ReadArgs) (o : Option Attributes) → args.count ≤ (fsinfo_ok o).rtmax →
        (read_done t args).bytes ≡ take args.count (drop args.offset (bytes_at t args.file)) }
    ensures read_above { (t : Tree) (args : ReadArgs) (o : Option Attributes) → (fsinfo_ok o).rtmax ≤ args.count →
        (read_done t args).bytes ≡ take (fsinfo_ok o).rtmax (drop args.offset (bytes_at t args.file)) }
    ensures write { (args : WriteArgs) (o : Option Attributes) → length args.bytes ≤ (fsinfo_ok o).wtmax → piece_written args ≡ args.bytes }
    ensures write_above { (args : WriteArgs) (o : Option Attributes) → (fsinfo_ok o).wtmax ≤ length args.bytes →
        (piece_written args ≡ take (fsinfo_ok o).wtmax args.bytes) × (length (piece_written args) ≡ (fsinfo_ok o).wtmax) }
    // Each size is a limit, by its one name.
    ensures limits { (o : Option Attributes) → ((fsinfo_ok o).rtmax ≡ transfer_max) × ((fsinfo_ok o).wtmax ≡ transfer_max)
        × ((fsinfo_ok o).dtpref ≡ listing_max) × ((fsinfo_ok o).maxfilesize ≡ file_size_max) }
    ensures preferred { (o : Option Attributes) → ((fsinfo_ok o).rtpref ≡ (fsinfo_ok o).rtmax) × ((fsinfo_ok o).wtpref ≡ (fsinfo_ok o).wtmax) }
    ensures multiples { (o : Option Attributes) → ((n : ℕ) × ((fsinfo_ok o).rtmax ≡ n * (fsinfo_ok o).rtmult))
        × ((n : ℕ) × ((fsinfo_ok o).wtmax ≡ n * (fsinfo_ok o).wtmult)) }
    ensures file { (t : Tree) (handle : List ℕ) (o : Option Attributes) → IsSane t → length (bytes_at t handle) ≤ (fsinfo_ok o).maxfilesize }
    ensures write_within { (args : WriteArgs) (o : Option Attributes) → args.count ≡ length args.bytes →
        (first (piece_rules args) ≡ None) ↔ (args.offset + length (piece_written args) ≤ (fsinfo_ok o).maxfilesize) }
    ensures write_past { (args : WriteArgs) (o : Option Attributes) → args.count ≡ length args.bytes →
        (first (piece_rules args) ≡ Some Fbig) ↔ ((fsinfo_ok o).maxfilesize < args.offset + length (piece_written args)) }
    ensures size_within { (size : ℕ) (o : Option Attributes) → (size_rule (Some size) ≡ None) ↔ (size ≤ (fsinfo_ok o).maxfilesize) }
    ensures size_past { (size : ℕ) (o : Option Attributes) → (size_rule (Some size) ≡ Some Fbig) ↔ ((fsinfo_ok o).maxfilesize < size) }
{}
