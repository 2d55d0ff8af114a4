//! The configuration of a gateway, a TOML document.

ghost use Rattle.std.specs.Prelude.{◌≡◌, ⊤, IfErr, IfOk, None, Some, option_map};
ghost use Rattle.toml.specs.View.{table_view};
ghost use Rattle.nr_words.specs.GateSettings.{gate_config_of, gate_config_settings, gate_settings_of, plain_gate_settings};
ghost use Rattle.nr_words.specs.declared.settings.ConfigFault.TheVariants.{Bad};

use crate::limits::CONNECTIONS_MAX;
use crate::settings::{ConfigFault, has_keys, number_at, text_at};
use std::alloc::{AllocError, Global};
use toml::Table;

/// How many keys the table has.
const GATE_KEYS: usize = 3;

/// What the configuration of a gateway says.
pub struct GateSettings<T> {
    /// The address at which it listens, for RPC over TCP with record marks.
    pub listen: T,
    /// The address of the server to which it forwards calls over RDMA.
    pub remote: T,
    /// The number of connections that it serves before it ends.
    pub connections: u64,
}

impl<T: Copy> Clone for GateSettings<T> {
    ghost is_clone = { λ x y. y ≡ x };

    ghost is_infallible = { λ _. ⊤ };

    fn clone(&self) -> Result<GateSettings<T>, AllocError> {
        Ok(*self)
    }
}

impl<T: Copy> Copy for GateSettings<T> {}

/// The configuration of a gateway.
#[derive(Drop)]
pub struct GateConfig {
    /// The address at which it listens.
    pub listen: String,
    /// The address of the server to which it forwards calls.
    pub remote: String,
    /// The number of connections that it serves before it ends.
    pub connections: u64,
}

/// What the table says: exactly the three keys, with values in range.
fn gate_settings_of(table: &Table) -> Option<GateSettings<&str>>
    ensures { option_map plain_gate_settings result ≡ gate_settings_of (table_view table.now) }
{
    if !has_keys(table, GATE_KEYS) {
        return None;
    }
    let listen = text_at(table, "listen")?;
    let remote = text_at(table, "remote")?;
    let connections = number_at(table, "connections", 1, CONNECTIONS_MAX)?;
    Some(GateSettings {
        listen,
        remote,
        connections,
    })
}

/// Reads the configuration of a gateway: a TOML document with the three keys `listen` and `remote` (texts) and `connections` (1
/// to 2^32 - 1), and no other.
pub fn read_gate_config(alloc: Global, bytes: &[u8]) -> Result<GateConfig, ConfigFault>
    ensures ok { IfOk result (λ config. gate_config_of bytes.now ≡ Some (gate_config_settings config)) }
    ensures bad { IfErr result (λ fault. fault ≡ Bad → gate_config_of bytes.now ≡ None) }
{
    let table = match toml::table_from_slice(alloc, bytes) {
        Ok(table) => table,
        Err(error) => {
            if error.is_memory() {
                return Err(ConfigFault::Memory);
            }
            return Err(ConfigFault::Bad);
        }
    };
    let settings = match gate_settings_of(&table) {
        Some(settings) => settings,
        None => return Err(ConfigFault::Bad),
    };
    let listen = String::from_str(alloc, settings.listen)?;
    let remote = String::from_str(alloc, settings.remote)?;
    Ok(GateConfig {
        listen,
        remote,
        connections: settings.connections,
    })
}
