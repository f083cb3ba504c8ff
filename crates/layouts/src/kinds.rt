// The kinds of layout body. Every call is told which one to read or write, and none guesses it from the bytes (Ticket 5).

// SCSI (RFC 8154), or RDMA (source document 001, section 2.4).
#[derive(Clone, Copy)]
pub enum Kind {
    Scsi,
    Rdma,
}
