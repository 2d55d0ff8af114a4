use crate::conn_end::ConnEnd;
use nr_record_host::RecordEnd;

/// How a link ended, by what it carried.
#[derive(Clone, Copy, Debug)]
pub enum LinkEnd {
    /// RPC over RDMA, as is also said of a link whose first read failed or handed out nothing.
    Rdma(ConnEnd),
    /// RPC over TCP with record marks (RFC 5531 section 11).
    Record(RecordEnd),
}
