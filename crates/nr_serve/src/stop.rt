//! Why a server that a configuration asks for stopped.

ghost use Rattle.std.specs.Prelude.{◌≡◌};
ghost use Rattle.nr_serve.specs.Stops.{stop_of_config, stop_of_read, stop_of_serve};

use nr_host::ServeFault;
use nr_outside::ReadEnd;
use nr_words::ConfigFault;

/// Why a server or a gateway wasn't opened, or stopped before it had served all its connections and printed that.
#[derive(Clone, Copy, Debug, PartialEq, Eq)]
pub enum ServeStop {
    /// Memory ran out.
    Memory,
    /// A read of the configuration failed.
    Input,
    /// The configuration is longer than 16777216 bytes.
    Budget,
    /// The text is no configuration.
    Configuration,
    /// The acceptor failed, or the dialer of a gateway: its fault count rose.
    Link,
    /// A write to the output failed.
    Output,
}

/// Why a configuration wasn't read.
pub fn stop_of_read(end: ReadEnd) -> ServeStop
    ensures { result ≡ stop_of_read end }
{
    match end {
        ReadEnd::Failed => ServeStop::Input,
        ReadEnd::TooLong => ServeStop::Budget,
        ReadEnd::Memory => ServeStop::Memory,
    }
}

/// Why a text gave no configuration.
pub fn stop_of_config(fault: ConfigFault) -> ServeStop
    ensures { result ≡ stop_of_config fault }
{
    match fault {
        ConfigFault::Bad => ServeStop::Configuration,
        ConfigFault::Memory => ServeStop::Memory,
    }
}

/// Why fewer links were taken than the configuration asks for.
pub fn stop_of_serve(fault: ServeFault) -> ServeStop
    ensures { result ≡ stop_of_serve fault }
{
    match fault {
        ServeFault::AcceptFault => ServeStop::Link,
        ServeFault::Memory => ServeStop::Memory,
    }
}
