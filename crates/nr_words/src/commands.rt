//! The commands.

ghost use Rattle.std.specs.Prelude.{◌≡◌, ⊤};

use std::alloc::AllocError;

/// What a client does at its server.
pub enum Action<T> {
    /// Print the handle of the export.
    Mount,
    /// Print the names in a directory.
    List { path: T },
    /// Print attributes.
    Stat { path: T },
    /// Print the path of a symbolic link.
    ReadLink { path: T },
    /// Make a directory.
    MakeDirectory { path: T },
    /// Remove what is no directory.
    Remove { path: T },
    /// Write standard input to a file.
    Put { path: T },
    /// Write a file to standard output.
    Get { path: T },
    /// Make a symbolic link at the path.
    Link { path: T, target: T },
}

impl<T: Copy> Clone for Action<T> {
    ghost is_clone = { λ x y. y ≡ x };

    ghost is_infallible = { λ _. ⊤ };

    fn clone(&self) -> Result<Action<T>, AllocError> {
        Ok(*self)
    }
}

impl<T: Copy> Copy for Action<T> {}

/// A client, and what it does.
pub struct Client<T> {
    /// The address of the server.
    pub addr: T,
    /// The path of the export.
    pub export: T,
    /// The user ID of its calls: 0 unless the line has another.
    pub uid: u32,
    /// The group ID of its calls: 0 unless the line has another.
    pub gid: u32,
    /// The units of its Sends in each direction, of 1,024 bytes each: 1 to [`UNITS_MAX`](crate::UNITS_MAX), and 1 unless the
    /// line has another number.
    pub units: u8,
    /// Whether it takes Sends with Invalidate (RFC 5040 section 4.7): only if the line says so.
    pub invalidates: bool,
    /// What it does.
    pub action: Action<T>,
}

impl<T: Copy> Clone for Client<T> {
    ghost is_clone = { λ x y. y ≡ x };

    ghost is_infallible = { λ _. ⊤ };

    fn clone(&self) -> Result<Client<T>, AllocError> {
        Ok(*self)
    }
}

impl<T: Copy> Copy for Client<T> {}

/// A client with a number. If its link is lost it dials again and sends the calls that weren't answered again, under the same xids: a
/// server that keeps replies by number and xid executes each of them at most once.
pub struct NumberedClient<T> {
    /// The client.
    pub client: Client<T>,
    /// Its number, which each hello of its links carries: 1 to [`CLIENT_NUMBER_MAX`](crate::CLIENT_NUMBER_MAX).
    pub number: u64,
    /// How often a lost link is dialled again, in all: 0 to [`TRIES_MAX`](crate::TRIES_MAX).
    pub tries: u8,
}

impl<T: Copy> Clone for NumberedClient<T> {
    ghost is_clone = { λ x y. y ≡ x };

    ghost is_infallible = { λ _. ⊤ };

    fn clone(&self) -> Result<NumberedClient<T>, AllocError> {
        Ok(*self)
    }
}

impl<T: Copy> Copy for NumberedClient<T> {}

/// A file that several jobs read, which is written to standard output.
pub struct GetByJobs<T> {
    /// The address of the server.
    pub addr: T,
    /// The path of the export.
    pub export: T,
    /// The path of the file.
    pub path: T,
    /// The user ID of its calls, as a client has it.
    pub uid: u32,
    /// The group ID of its calls, as a client has it.
    pub gid: u32,
    /// The units of its Sends in each direction, as a client has them.
    pub units: u8,
    /// Whether it takes Sends with Invalidate, as a client does.
    pub invalidates: bool,
    /// The number of jobs: 2 to [`JOBS_MAX`](crate::JOBS_MAX).
    pub jobs: u8,
}

impl<T: Copy> Clone for GetByJobs<T> {
    ghost is_clone = { λ x y. y ≡ x };

    ghost is_infallible = { λ _. ⊤ };

    fn clone(&self) -> Result<GetByJobs<T>, AllocError> {
        Ok(*self)
    }
}

impl<T: Copy> Copy for GetByJobs<T> {}

/// What the words of a run ask for.
pub enum Command<T> {
    /// Serve by the configuration in this file.
    Serve {
        config: T,
    },
    /// Run a gateway by the configuration in this file.
    Gate {
        config: T,
    },
    /// Run a client.
    Client {
        client: Client<T>,
    },
    /// Run a client that has a number.
    NumberedClient {
        client: NumberedClient<T>,
    },
    /// Run a client that writes a file to standard output, which several jobs read.
    GetByJobs {
        get: GetByJobs<T>,
    },
    /// Run a script from standard input. `log` says whether the capture of the run is printed, in place of the report.
    Drill {
        log: bool,
    },
    /// Run a script that is generated from this seed, of 1 to [`CLIENTS_MAX`](crate::CLIENTS_MAX) clients and 1 to
    /// [`CALLS_MAX`](crate::CALLS_MAX) calls. `log` says whether the capture of the run is printed, in place of the line of
    /// sums.
    GeneratedDrill {
        seed: u64,
        clients: u32,
        calls: u32,
        log: bool,
    },
}

impl<T: Copy> Clone for Command<T> {
    ghost is_clone = { λ x y. y ≡ x };

    ghost is_infallible = { λ _. ⊤ };

    fn clone(&self) -> Result<Command<T>, AllocError> {
        Ok(*self)
    }
}

impl<T: Copy> Copy for Command<T> {}
