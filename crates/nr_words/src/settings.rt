//! The configuration of a server, a TOML document.

ghost use Rattle.std.specs.Prelude.{◌≡◌, ◌≤◌, ◌==◌, ⊤, IfErr, IfOk, None, Some, codes, option_map};
ghost use Rattle.toml.specs.View.{table_view};
ghost use Rattle.nr_words.specs.Settings.{choices_of, config_of, config_settings, count, flag_at, in_range, integer_at, keys_of, number_at, number_or, numbers_of, path_at, plain_settings, present_at, settings_of, text_at, verifier_at};
ghost use Rattle.nr_words.specs.Limits.{default_units, units_max};
ghost use Rattle.nr_words.specs.declared.settings.ConfigFault.TheVariants.{Bad};

use crate::limits::{
    CAPACITY_MAX, CONNECTIONS_MAX, CREDITS_MAX, DEFAULT_UNITS, MOUNT_PATH_MAX, UNITS_MAX,
};
use hex::FromHex;
use std::alloc::{AllocError, Global};
use toml::Table;

/// What the configuration of a server says.
pub struct Settings<T> {
    /// The address at which it listens.
    pub listen: T,
    /// The path of its export.
    pub export: T,
    /// The maximum number of credits that it grants to a connection.
    pub credits: u64,
    /// The maximum of what its journal may cost, in bytes.
    pub capacity: u64,
    /// The number of connections that it serves before it ends.
    pub connections: u64,
    /// The verifier of WRITE and COMMIT (RFC 1813 section 3.3.7).
    pub write_verifier: [u8; 8],
    /// Whether it serves RPC over TCP with record marks (RFC 5531 section 11) too.
    pub records: bool,
    /// The units of its Sends in each direction, of 1,024 bytes each: 1 to [`UNITS_MAX`](crate::UNITS_MAX).
    pub units: u8,
    /// The most credits that it grants in a message that is due while more than half of the receives of a connection are in use: 1 to
    /// `credits`.
    pub low_credits: u64,
    /// Whether it answers by Sends with Invalidate if a client takes them (RFC 5040 section 4.7).
    pub invalidates: bool,
}

impl<T: Copy> Clone for Settings<T> {
    ghost is_clone = { λ x y. y ≡ x };

    ghost is_infallible = { λ _. ⊤ };

    fn clone(&self) -> Result<Settings<T>, AllocError> {
        Ok(*self)
    }
}

impl<T: Copy> Copy for Settings<T> {}

/// The configuration of a server.
#[derive(Drop)]
pub struct Config {
    /// The address at which it listens.
    pub listen: String,
    /// The path of its export.
    pub export: String,
    /// The maximum number of credits that it grants to a connection.
    pub credits: u64,
    /// The maximum of what its journal may cost, in bytes.
    pub capacity: u64,
    /// The number of connections that it serves before it ends.
    pub connections: u64,
    /// The verifier of WRITE and COMMIT (RFC 1813 section 3.3.7).
    pub write_verifier: [u8; 8],
    /// Whether it serves RPC over TCP with record marks (RFC 5531 section 11) too.
    pub records: bool,
    /// The units of its Sends in each direction, of 1,024 bytes each: 1 to [`UNITS_MAX`](crate::UNITS_MAX).
    pub units: u8,
    /// The most credits that it grants in a message that is due while more than half of the receives of a connection are in use: 1 to
    /// `credits`.
    pub low_credits: u64,
    /// Whether it answers by Sends with Invalidate if a client takes them (RFC 5040 section 4.7).
    pub invalidates: bool,
}

/// Why a text gives no configuration.
#[derive(Clone, Copy, PartialEq, Eq, Drop)]
pub enum ConfigFault {
    /// The text is no configuration.
    Bad,
    /// Memory ran out.
    Memory,
}

impl From<AllocError> for ConfigFault {
    ghost use Rattle.nr_words.specs.declared.settings.ConfigFault.TheVariants as faults;

    ghost from_gives = { λ _ fault. fault ≡ faults.Memory };

    fn from(_error: AllocError) -> ConfigFault {
        ConfigFault::Memory
    }
}

/// The text at a key.
pub(crate) fn text_at<'a>(table: &'a Table, key: &str) -> Option<&'a str>
    ensures { option_map (λ s. s.now) result ≡ text_at key.now (table_view table.now) }
{
    match table.get(key) {
        Some(value) => value.as_str(),
        None => None,
    }
}

/// The integer at a key.
fn integer_at(table: &Table, key: &str) -> Option<i64>
    ensures { result ≡ integer_at key.now (table_view table.now) }
{
    match table.get(key) {
        Some(value) => value.as_integer(),
        None => None,
    }
}

/// A number, if it is in the range.
fn in_range(low: u64, high: u64, value: i64) -> Option<u64>
    ensures { result ≡ in_range low high value }
{
    if value < 0 {
        return None;
    }
    let value = value as u64;
    if value < low {
        return None;
    }
    if value > high {
        return None;
    }
    Some(value)
}

/// The number at a key, if it is in the range.
pub(crate) fn number_at(table: &Table, key: &str, low: u64, high: u64) -> Option<u64>
    ensures { result ≡ number_at low high key.now (table_view table.now) }
{
    let value = integer_at(table, key)?;
    in_range(low, high, value)
}

/// The path at a key, of at least one byte and at most [`MOUNT_PATH_MAX`].
fn path_at<'a>(table: &'a Table, key: &str) -> Option<&'a str>
    ensures { option_map (λ s. s.now) result ≡ path_at key.now (table_view table.now) }
{
    let path = text_at(table, key)?;
    if path.is_empty() {
        return None;
    }
    if path.len() > MOUNT_PATH_MAX {
        return None;
    }
    Some(path)
}

/// Whether the table has this many keys.
pub(crate) fn has_keys(table: &Table, keys: usize) -> bool
    ensures { result ≡ (count (table_view table.now) == keys) }
{
    table.len() == keys
}

/// How many keys of this name the table has: one or none.
fn present_at(table: &Table, key: &str) -> usize
    ensures is { result ≡ present_at key.now (table_view table.now) }
    ensures few { result ≤ 1 }
{
    match table.get(key) {
        Some(_) => 1,
        None => 0,
    }
}

/// How many keys the table may have: the six that each table has, and those that may be left out and are there.
fn keys_of(table: &Table) -> usize
    ensures { result ≡ keys_of (table_view table.now) }
{
    6 + present_at(table, "record")
        + present_at(table, "inline")
        + present_at(table, "low_credits")
        + present_at(table, "invalidate")
}

/// The boolean at a key, `false` if that is not there.
fn flag_at(table: &Table, key: &str) -> Option<bool>
    ensures { result ≡ flag_at key.now (table_view table.now) }
{
    match table.get(key) {
        Some(value) => value.as_bool(),
        None => Some(false),
    }
}

/// The number at a key, if it is in the range, the default if that is not there.
fn number_or(table: &Table, key: &str, default: u64, low: u64, high: u64) -> Option<u64>
    ensures { result ≡ number_or default low high key.now (table_view table.now) }
{
    if present_at(table, key) == 0 {
        return Some(default);
    }
    number_at(table, key, low, high)
}

/// The values of the keys that may be left out.
#[derive(Clone, Copy)]
struct Choices {
    records: bool,
    units: u8,
    low_credits: u64,
    invalidates: bool,
}

/// The number of units at `inline`, the default if that is not there.
fn units_at(table: &Table) -> Option<u8>
    ensures { result ≡ number_or default_units 1 units_max (codes "inline") (table_view table.now) }
{
    match number_or(table, "inline", u64::from(DEFAULT_UNITS), 1, UNITS_MAX) {
        Some(units) => Some(units as u8),
        None => None,
    }
}

/// What the keys say that may be left out, for a server with these credits.
fn choices_of(table: &Table, credits: u64) -> Option<Choices>
    ensures { result ≡ choices_of credits (table_view table.now) }
{
    let records = flag_at(table, "record")?;
    let units = units_at(table)?;
    let low_credits = number_or(table, "low_credits", credits, 1, credits)?;
    let invalidates = flag_at(table, "invalidate")?;
    Some(Choices {
        records,
        units,
        low_credits,
        invalidates,
    })
}

/// The numbers that each table has.
#[derive(Clone, Copy)]
struct Numbers {
    credits: u64,
    capacity: u64,
    connections: u64,
}

/// What the three keys of numbers say.
fn numbers_of(table: &Table) -> Option<Numbers>
    ensures { result ≡ numbers_of (table_view table.now) }
{
    let credits = number_at(table, "credits", 1, CREDITS_MAX)?;
    let capacity = number_at(table, "capacity", 0, CAPACITY_MAX)?;
    let connections = number_at(table, "connections", 1, CONNECTIONS_MAX)?;
    Some(Numbers {
        credits,
        capacity,
        connections,
    })
}

/// The eight bytes of the sixteen hexadecimal digits at a key.
fn verifier_at(table: &Table, key: &str) -> Option<[u8; 8]>
    ensures { result ≡ verifier_at key.now (table_view table.now) }
{
    let text = text_at(table, key)?;
    <[u8; 8] as FromHex>::from_hex(text).ok()
}

/// What the table says: exactly the six keys, and those that may be left out, with values in range.
fn settings_of(table: &Table) -> Option<Settings<&str>>
    ensures { option_map plain_settings result ≡ settings_of (table_view table.now) }
{
    if !has_keys(table, keys_of(table)) {
        return None;
    }
    let listen = text_at(table, "listen")?;
    let export = path_at(table, "export")?;
    let numbers = numbers_of(table)?;
    let write_verifier = verifier_at(table, "write_verifier")?;
    let choices = choices_of(table, numbers.credits)?;
    Some(Settings {
        listen,
        export,
        credits: numbers.credits,
        capacity: numbers.capacity,
        connections: numbers.connections,
        write_verifier,
        records: choices.records,
        units: choices.units,
        low_credits: choices.low_credits,
        invalidates: choices.invalidates,
    })
}

/// Reads a configuration: a TOML document with the six keys `listen` (text), `export` (text of 1 to 1024 bytes), `credits`
/// (1 to 64), `capacity` (0 to 2^63 - 1), `connections` (1 to 2^32 - 1) and `write_verifier` (text of 16 hexadecimal
/// digits), which may also have `record` (boolean; `false` if it is left out), `inline` (1 to 16; 1 if it is left out),
/// `low_credits` (1 to `credits`; `credits` if it is left out) and `invalidate` (boolean; `false` if it is left out), and no
/// other.
pub fn read_config(alloc: Global, bytes: &[u8]) -> Result<Config, ConfigFault>
    ensures ok { IfOk result (λ config. config_of bytes.now ≡ Some (config_settings config)) }
    ensures bad { IfErr result (λ fault. fault ≡ Bad → config_of bytes.now ≡ None) }
{
    let table = match toml::table_from_slice(alloc, bytes) {
        Ok(table) => table,
        Err(error) => {
            if error.is_memory() {
                return Err(ConfigFault::Memory);
            }
            return Err(ConfigFault::Bad);
        }
    };
    let settings = match settings_of(&table) {
        Some(settings) => settings,
        None => return Err(ConfigFault::Bad),
    };
    let listen = String::from_str(alloc, settings.listen)?;
    let export = String::from_str(alloc, settings.export)?;
    Ok(Config {
        listen,
        export,
        credits: settings.credits,
        capacity: settings.capacity,
        connections: settings.connections,
        write_verifier: settings.write_verifier,
        records: settings.records,
        units: settings.units,
        low_credits: settings.low_credits,
        invalidates: settings.invalidates,
    })
}
